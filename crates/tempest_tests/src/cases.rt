//! Cases, parted by `%%`: an input, and behind each `=>` the words that ask of it, the status and the report. A line such as
//! `<BOTH>` stands for the machine of that name, and one such as `<WALK>` for the sample protocol.

use crate::asking::{expect, expect_same};
use driven_rows::TWO_RESTS;
use machine_texts::{BOTH, READER, SEVEN_READERS, SHORT_READER, STORE_AND_PRINT};
use std::alloc::Global;
use std::process::Abort;
use std::test::Fail;
use teapot_samples::{DEAF, DEEP, DOUBLE, DROP, PING_PONG, STACHE, WALK};
use tempest_run::Status;

static NAMED: [(&str, &str); 12] = [
    ("<BOTH>\n", BOTH),
    ("<READER>\n", READER),
    ("<SEVEN_READERS>\n", SEVEN_READERS),
    ("<SHORT_READER>\n", SHORT_READER),
    ("<STORE_AND_PRINT>\n", STORE_AND_PRINT),
    ("<TWO_RESTS>\n", TWO_RESTS),
    ("<DEAF>\n", DEAF),
    ("<PING_PONG>\n", PING_PONG),
    ("<DOUBLE>\n", DOUBLE),
    ("<DEEP>\n", DEEP),
    ("<DROP>\n", DROP),
    ("<WALK>\n", WALK),
];

// The input with this text in place of its name.
fn with_named(alloc: Global, input: &str, name: &str, text: &str) -> Result<String, Fail> {
    match input.split_once(name) {
        Some((front, back)) => Ok(format!(in alloc; "{front}{text}{back}")?),
        None => Ok(String::from_str(alloc, input)?),
    }
}

// The input with the machine and the sample protocol that it names.
fn whole(alloc: Global, input: &str) -> Result<String, Fail> {
    let mut whole = String::from_str(alloc, input)?;
    for (name, text) in NAMED {
        whole = with_named(alloc, whole.as_str(), name, text)?;
    }
    Ok(whole)
}

fn status(name: &str) -> Result<Status, Fail> {
    match name {
        "Done" => Ok(Status::Done),
        "Unfinished" => Ok(Status::Unfinished),
        "Refused" => Ok(Status::Refused),
        "Denied" => Ok(Status::Denied),
        _ => Err(Fail::new("a status of another name")),
    }
}

// The words, the status and the report of a question to the input.
fn expect_answer(rt: &impl Abort, alloc: Global, input: &str, question: &str) -> Result<(), Fail> {
    let (asked, report) = question.split_once('\n').ok_or("no report")?;
    let (words, name) = asked.split_once(" : ").ok_or("no status")?;
    expect(rt, alloc, words, input, status(name)?, report)
}

fn expect_answers(
    rt: &impl Abort,
    alloc: Global,
    input: &str,
    questions: &str,
) -> Result<(), Fail> {
    for question in questions.split("=> ") {
        expect_answer(rt, alloc, input, question)?;
    }
    Ok(())
}

fn expect_case(rt: &impl Abort, alloc: Global, case: &str) -> Result<(), Fail> {
    let (input, questions) = case.split_once("=> ").ok_or("no question")?;
    let text = whole(alloc, input)?;
    expect_answers(rt, alloc, text.as_str(), questions)
}

pub fn expect_all(rt: &impl Abort, alloc: Global, cases: &str) -> Result<(), Fail> {
    for case in cases.split("%%\n") {
        expect_case(rt, alloc, case)?;
    }
    Ok(())
}

const STRIDES: [u32; 7] = [0, 1, 2, 3, 7, 1000, 4_294_967_295];

// Runs of one input, each on nodes with compiled handlers and on the model.
fn expect_meaning(rt: &impl Abort, alloc: Global, text: &str) -> Result<(), Fail> {
    for stride in STRIDES {
        let asked = format!(in alloc; "serial {stride} --journal")?;
        expect_same(rt, alloc, asked.as_str(), "--meaning", text)?;
    }
    Ok(())
}

/// About the input of each case nodes with compiled handlers and the model write the same.
pub fn expect_meanings(rt: &impl Abort, alloc: Global, cases: &str) -> Result<(), Fail> {
    for case in cases.split("%%\n") {
        let (input, _questions) = case.split_once("=> ").ok_or("no question")?;
        let text = whole(alloc, input)?;
        expect_meaning(rt, alloc, text.as_str())?;
    }
    Ok(())
}

// The shipped protocol in a section of the first text runs as where it has no section.
pub fn expect_section(rt: &impl Abort, alloc: Global, cases: &str) -> Result<(), Fail> {
    let first = cases.split("%%\n").next().ok_or("no case")?;
    let (input, questions) = first.split_once("=> ").ok_or("no question")?;
    let machine = whole(alloc, input)?;
    let text = format!(in alloc; "{machine}protocol\n{STACHE}end\n")?;
    expect_answers(rt, alloc, text.as_str(), questions)
}
