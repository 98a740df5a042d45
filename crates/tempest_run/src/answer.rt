ghost use Rattle.std.specs.Prelude.{◌≡◌, ◌+◌, ◌^◌, ◌<◌, true, false, length, IfOk};
ghost use Rattle.std.specs.List.{list_all};
ghost use Rattle.dsm_runs.specs.Setups.{IsSetup};
ghost use Rattle.journal.specs.History.{first_break};
ghost use Rattle.tempest_run.specs.Answering.{Answers, AnswersAlone, IsAnswer, IsRun, TellsOfAudit, TellsOfCode, TellsOfReplay};
ghost use Rattle.tempest_run.specs.Answering.{TellsOfRun, ending_of, has_halted, is_threaded, options_of, reads_input, refusal};
ghost use Rattle.tempest_run.specs.Answering.{show_answer, status_of, table_answer, told_answer, trial_answer, why_text};

use crate::accepted::check_answer;
use crate::given::reads_input;
use crate::input::read_with_report;
use crate::status::Status;
use code_text::code_text;
use dsm_model::{Global, settle};
use dsm_runs::{Outcome, Setup, runs_are_short, schedules_are_one_run};
use journal::{Break, Final, Options, finals_of, first_break, history_is_told, report, words_of};
use mini_asm::Flat;
use stache_cases::table;
use std::alloc;
use still_meaning::what_is_read_is_the_states;
use still_nodes::Still;
use suspend_split::split;
use teapot_print::print;
use teapot_tree::Checked;
use tempest_input::{Body, Ending, InputError, Why};
use tempest_trials::{Trial, audited, replayed};
use tempest_words::{Asked, Command};
use tw_base::{Entry, Listed, Memory};

/// What is written for a text, and with which status.
#[derive(Debug, Drop)]
pub struct Answer {
    pub status: Status,
    pub text: Listed<u8>,
}

fn why_text(why: Why) -> &'static str
    ensures { result.now ≡ why_text why }
{
    match why {
        Why::NotAscii => "NotAscii",
        Why::BadToken => "BadToken",
        Why::BadLine => "BadLine",
        Why::OutOfRange => "OutOfRange",
        Why::Repeated => "Repeated",
        Why::TooLong => "TooLong",
        Why::LabelTwice => "LabelTwice",
        Why::NoLabel => "NoLabel",
        Why::BadNest => "BadNest",
        Why::TooMany => "TooMany",
        Why::Undeclared => "Undeclared",
        Why::Twice => "Twice",
        Why::WrongType => "WrongType",
        Why::ArgCount => "ArgCount",
        Why::NoDefault => "NoDefault",
        Why::ContDropped => "ContDropped",
        Why::ResumeNotLast => "ResumeNotLast",
        Why::ResumeForeign => "ResumeForeign",
        Why::AfterSuspend => "AfterSuspend",
        Why::NoData => "NoData",
        Why::TooManySends => "TooManySends",
        Why::NotTwoStarts => "NotTwoStarts",
    }
}

/// The line that refuses a text.
pub fn refusal(alloc: alloc::Global, number: u32, why: Why) -> Result<Answer, Memory>
    ensures { IfOk result (λ a. a ≡ refusal number why) }
{
    let reason = why_text(why);
    Ok(Answer {
        status: Status::Refused,
        text: Listed::of(format!(in alloc; "refused line {number} {reason}\n")?.into_bytes()),
    })
}

fn has_halted(ended: Outcome) -> bool
    ensures { result ≡ has_halted ended }
{
    matches!(ended, Outcome::Halted)
}

fn have_halted(finals: &[Final]) -> bool
    ensures { result ≡ list_all (λ f. has_halted f.outcome) finals.now }
{
    finals.iter().all(|ended| has_halted(ended.outcome))
}

// Done where every node has halted.
fn status_of(finals: &[Final]) -> Status
    ensures { result ≡ status_of finals.now }
{
    if have_halted(finals) {
        Status::Done
    } else {
        Status::Unfinished
    }
}

/// The first break of a run's history, which is sought beside a flat machine.
pub fn break_of(
    alloc: alloc::Global,
    setup: &Setup,
    journal: &[Entry],
) -> Result<Option<Break>, Memory>
    requires { IsRun setup.now journal.now }
    ensures value { IfOk result (λ b. b ≡ first_break setup.now journal.now) }
    ensures valid { IsSetup setup.now }
{
    runs_are_short();
    let mut flat = Flat::new(alloc, setup.shape(), setup.init(), setup.programs())?;
    Ok(first_break(&mut flat, journal))
}

/// The report of a run: its journal, how its nodes ended, and the words that they left.
pub fn told_answer(
    alloc: alloc::Global,
    setup: &Setup,
    journal: &[Entry],
    finals: &[Final],
    words: &[u64],
    options: Options,
) -> Result<Answer, Memory>
    requires { IsRun setup.now journal.now }
    ensures value { IfOk result (λ a. a ≡ told_answer setup.now journal.now finals.now words.now options) }
    ensures valid { IsSetup setup.now }
{
    let broken = break_of(alloc, setup, journal)?;
    let text = report(alloc, setup, journal, finals, words, broken, options)?;
    Ok(Answer {
        status: status_of(finals),
        text: Listed::of(text),
    })
}

// The report of the serial run of a setup, on nodes with compiled handlers.
fn nodes_answer(
    alloc: alloc::Global,
    setup: &Setup,
    stride: u32,
    options: Options,
) -> Result<Answer, Memory>
    ensures { IfOk result (λ a. TellsOfRun setup.now stride options a) }
{
    schedules_are_one_run();
    history_is_told();
    what_is_read_is_the_states();
    let code = split(alloc, setup.protocol())?;
    let mut still = Still::new(alloc, setup, &code)?;
    still.settle(alloc, stride)?;
    let finals = finals_of(alloc, &still)?;
    let words = words_of(alloc, &still)?;
    told_answer(
        alloc,
        setup,
        still.taken(),
        finals.items(),
        words.items(),
        options,
    )
}

// The same report, of the run on the model, which counts nothing.
fn model_answer(
    alloc: alloc::Global,
    setup: &Setup,
    stride: u32,
    options: Options,
) -> Result<Answer, Memory>
    requires { options.counts ≡ false }
    ensures { IfOk result (λ a. TellsOfRun setup.now stride options a) }
{
    schedules_are_one_run();
    history_is_told();
    let mut g = Global::new(alloc, setup)?;
    let entries = settle(alloc, &mut g, stride)?;
    let finals = finals_of(alloc, &g)?;
    let words = words_of(alloc, &g)?;
    told_answer(
        alloc,
        setup,
        entries.items(),
        finals.items(),
        words.items(),
        options,
    )
}

// The report of the serial run of a setup: on the model where the words ask for it, which then ask for no counts.
fn report_answer(
    alloc: alloc::Global,
    setup: &Setup,
    stride: u32,
    asked: Asked,
) -> Result<Answer, Memory>
    ensures { IfOk result (λ a. TellsOfRun setup.now stride (options_of asked) a) }
{
    let options = options_of(asked);
    if asked.meaning && !asked.counts {
        model_answer(alloc, setup, stride, options)
    } else {
        nodes_answer(alloc, setup, stride, options)
    }
}

// The canonical text of a protocol.
fn show_answer(alloc: alloc::Global, protocol: &Checked) -> Result<Answer, Memory>
    ensures { IfOk result (λ a. a ≡ show_answer protocol.now) }
{
    Ok(Answer {
        status: Status::Done,
        text: Listed::of(print(alloc, protocol.protocol())?),
    })
}

// The text of the code of a protocol's handlers.
fn code_answer(alloc: alloc::Global, protocol: &Checked) -> Result<Answer, Memory>
    ensures { IfOk result (λ a. TellsOfCode protocol.now a) }
{
    let code = split(alloc, protocol)?;
    let text = code_text(alloc, protocol, &code)?;
    Ok(Answer {
        status: Status::Done,
        text: Listed::of(text),
    })
}

// The table of the shipped protocol.
fn table_answer(alloc: alloc::Global) -> Result<Answer, Memory>
    ensures { IfOk result (λ a. a ≡ table_answer) }
{
    Ok(Answer {
        status: Status::Done,
        text: Listed::of(table(alloc)?),
    })
}

// A report that is denied has a status of its own.
fn trial_answer(trial: Trial) -> Answer
    ensures { result ≡ trial_answer trial }
{
    match trial {
        Trial::Stands(text) => Answer {
            status: Status::Done,
            text,
        },
        Trial::Denied(text) => Answer {
            status: Status::Denied,
            text,
        },
    }
}

// Whether a report is explained by one flat memory.
fn audit_answer(alloc: alloc::Global, setup: &Setup, report: &Body) -> Result<Answer, Memory>
    ensures { IfOk result (λ a. TellsOfAudit setup.now report.now a) }
{
    let trial = audited(alloc, setup, report.lines.items(), report.end)?;
    Ok(trial_answer(trial))
}

// What comes of so many events of a report.
fn replay_answer(
    alloc: alloc::Global,
    setup: &Setup,
    report: &Body,
    count: u32,
) -> Result<Answer, Memory>
    ensures { IfOk result (λ a. TellsOfReplay count setup.now report.now a) }
{
    let trial = replayed(alloc, setup, report.lines.items(), report.end, count)?;
    Ok(trial_answer(trial))
}

/// What a report is to have.
pub fn options_of(asked: Asked) -> Options
    ensures { result ≡ options_of asked }
{
    Options {
        journal: asked.journal,
        counts: asked.counts,
    }
}

// The answer where a text sets this up and has these lines of a report.
fn answer_about(
    alloc: alloc::Global,
    asked: Asked,
    setup: &Setup,
    report: &Body,
) -> Result<Answer, Memory>
    requires reads { reads_input asked.command ≡ true }
    requires plain { is_threaded asked.command ≡ false }
    ensures { IfOk result (λ a. Answers asked.command (options_of asked) setup.now report.now a) }
{
    match asked.command {
        Command::Serial(stride) => report_answer(alloc, setup, stride, asked),
        Command::Check => check_answer(alloc, setup.protocol()),
        Command::Code => code_answer(alloc, setup.protocol()),
        Command::Show => show_answer(alloc, setup.protocol()),
        Command::Audit => audit_answer(alloc, setup, report),
        Command::Replay(count) => replay_answer(alloc, setup, report, count),
        Command::Run | Command::Table | Command::Sample(_) => unreachable!(),
    }
}

// The answer to a command that reads no input.
fn answer_alone(alloc: alloc::Global, command: Command) -> Result<Answer, Memory>
    requires reads { reads_input command ≡ false }
    requires plain { is_threaded command ≡ false }
    ensures { IfOk result (λ a. AnswersAlone command a) }
{
    match command {
        Command::Table => table_answer(alloc),
        Command::Run | Command::Serial(_) => unreachable!(),
        Command::Check | Command::Code | Command::Show | Command::Sample(_) => unreachable!(),
        Command::Audit | Command::Replay(_) => unreachable!(),
    }
}

// Where the layout of a command's input ends.
fn ending_of(command: Command) -> Ending
    ensures { result ≡ ending_of command }
{
    match command {
        Command::Run | Command::Serial(_) | Command::Sample(_) => Ending::Text,
        Command::Check | Command::Code | Command::Show | Command::Table => Ending::Text,
        Command::Audit | Command::Replay(_) => Ending::Report,
    }
}

/// The answer to a text, which a command that reads none does not look at.
pub fn answer_to(alloc: alloc::Global, asked: Asked, text: &[u8]) -> Result<Answer, Memory>
    requires short { length text.now + 2 < 2 ^ 32 }
    requires plain { is_threaded asked.command ≡ false }
    ensures { IfOk result (λ a. IsAnswer asked text.now a) }
{
    if !reads_input(asked.command) {
        return answer_alone(alloc, asked.command);
    }
    match read_with_report(alloc, ending_of(asked.command), text) {
        Ok((setup, report)) => answer_about(alloc, asked, &setup, &report),
        Err(InputError::Refused { line, why }) => refusal(alloc, line, why),
        Err(InputError::Memory) => Err(Memory),
    }
}
