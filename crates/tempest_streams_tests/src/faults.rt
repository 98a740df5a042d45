use crate::calls::{Question, REPORT, TEXT, expect};
use std::alloc::Global;
use std::process::Abort;
use std::test::Fail;
use tempest_run::Status;

/// What is asked of the text, and the answer's front.
const ASKED: [&str; 4] = ["serial 0", "check", "code", "show"];

// Each read of a byte of the text fails in turn, and the one that finds its end. Whatever the sink would do, nothing is written.
fn expect_read_faults(rt: &impl Abort, alloc: Global, words: &str) -> Result<(), Fail> {
    for call in 1..=94u64 {
        let asked = Question {
            words,
            text: TEXT.as_bytes(),
            failing_read: Some(call),
            failing_write: Some(1),
        };
        expect(rt, alloc, &asked, Status::ReadFault, b"")?;
    }
    Ok(())
}

#[test]
fn each_read_fails_in_turn(rt: HostRuntime) -> Result<(), Fail> {
    for words in ASKED {
        expect_read_faults(&rt, rt.alloc(), words)?;
    }
    Ok(())
}

// Behind the end of the text nothing is read.
#[test]
fn no_read_follows_the_end(rt: HostRuntime) -> Result<(), Fail> {
    let asked = Question {
        words: "serial 0",
        text: TEXT.as_bytes(),
        failing_read: Some(95),
        failing_write: None,
    };
    expect(&rt, rt.alloc(), &asked, Status::Done, REPORT.as_bytes())
}

// Each write of a byte fails in turn, behind which nothing is written.
fn expect_write_faults(
    rt: &impl Abort,
    alloc: Global,
    words: &str,
    text: &str,
    due: &str,
) -> Result<(), Fail> {
    for written in 0..due.len() {
        let asked = Question {
            words,
            text: text.as_bytes(),
            failing_read: None,
            failing_write: Some(written as u64 + 1),
        };
        let front = due.as_bytes().get(..written).ok_or("a shorter answer")?;
        expect(rt, alloc, &asked, Status::WriteFault, front)?;
    }
    Ok(())
}

#[test]
fn each_write_fails_in_turn(rt: HostRuntime) -> Result<(), Fail> {
    let alloc = rt.alloc();
    expect_write_faults(&rt, alloc, "serial 0", TEXT, REPORT)?;
    let accepted = "accepted Stache messages 8 infos 3 states 10 handlers 30\n";
    expect_write_faults(&rt, alloc, "check", TEXT, accepted)?;
    expect_write_faults(&rt, alloc, "check", "", "refused line 1 BadLine\n")?;
    expect_write_faults(&rt, alloc, "run", TEXT, "refused words\n")
}

// Behind the last byte of the report nothing is written.
#[test]
fn no_write_follows_the_end(rt: HostRuntime) -> Result<(), Fail> {
    for call in [171, 172, 1000, u64::MAX] {
        let asked = Question {
            words: "serial 0",
            text: TEXT.as_bytes(),
            failing_read: None,
            failing_write: Some(call),
        };
        expect(&rt, rt.alloc(), &asked, Status::Done, REPORT.as_bytes())?;
    }
    Ok(())
}
