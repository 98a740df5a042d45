ghost use Rattle.std.specs.Prelude.{◌≡◌, ◌+◌, ◌^◌, ◌<◌, length, Some, IfOk, OnErr};
ghost use Rattle.dsm_runs.specs.Merges.{IsSorted};
ghost use Rattle.gathered_runs.specs.Runs.{IsToldRun};
ghost use Rattle.tempest_run.specs.Answering.{IsAnswer, TellsOfSample, TellsOfThreads};
ghost use Rattle.tempest_run.specs.Calls.{IsDueFor, IsShort, IsText, TopCall, told};

use crate::answer::{Answer, answer_to, break_of, options_of, refusal, told_answer};
use crate::due::{Due, write_due};
use crate::given::{Given, Stopped, read_given};
use crate::input::read_with_report;
use crate::status::Status;
use dsm_runs::Setup;
use journal::{Options, history_is_told, merge};
use node_runtime::{Gate, run_threads};
use sample_runs::{sample_setup, summary};
use sample_sums::samples_have_one_summary;
use std::alloc::Global;
use std::sync::Wait;
use std::thread::Threads;
use still_nodes::Gathered;
use suspend_split::split;
use tempest_input::{Ending, InputError};
use tempest_words::{Asked, Command};
use tw_base::{Entry, Listed, Memory};
use tw_io::{Sink, Source};

/// After how many turns in a row without an event a worker ends.
const IDLE: u32 = 1_000;

// A run on threads: its journal, and what was gathered of its nodes.
#[derive(Drop)]
struct ThreadedRun {
    journal: Listed<Entry>,
    gathered: Gathered,
}

// Runs a setup on threads, in turns of at most `batch` events, and merges the logs.
fn run<R: Threads + Wait + Sync, G: Gate + Sync>(
    rt: &R,
    alloc: Global,
    setup: &Setup,
    gate: &G,
    batch: u32,
) -> Result<ThreadedRun, Memory>
    ensures run { IfOk result (λ r. IsToldRun setup.now r.journal r.gathered) }
    ensures sorted { IfOk result (λ r. IsSorted r.journal) }
{
    let code = split(alloc, setup.protocol())?;
    let gathered = run_threads(rt, alloc, setup, &code, gate, batch, IDLE)?;
    let journal = merge(alloc, &gathered.logs)?;
    Ok(ThreadedRun { journal, gathered })
}

// The report of a run of a setup on threads.
fn run_answer<R: Threads + Wait + Sync, G: Gate + Sync>(
    rt: &R,
    alloc: Global,
    setup: &Setup,
    gate: &G,
    batch: u32,
    options: Options,
) -> Result<Answer, Memory>
    ensures { IfOk result (λ a. TellsOfThreads setup.now options a) }
{
    history_is_told();
    let run = run(rt, alloc, setup, gate, batch)?;
    told_answer(
        alloc,
        setup,
        run.journal.items(),
        run.gathered.finals.items(),
        run.gathered.words.items(),
        options,
    )
}

// The summary of a run of a sample on threads.
fn sample_answer<R: Threads + Wait + Sync, G: Gate + Sync>(
    rt: &R,
    alloc: Global,
    number: u32,
    gate: &G,
    batch: u32,
) -> Result<Answer, Memory>
    ensures { IfOk result (λ a. TellsOfSample number a) }
{
    history_is_told();
    samples_have_one_summary();
    let setup = sample_setup(alloc, number)?;
    let run = run(rt, alloc, &setup, gate, batch)?;
    let broken = break_of(alloc, &setup, run.journal.items())?;
    let text = summary(
        alloc,
        &setup,
        number,
        run.journal.items(),
        run.gathered.finals.items(),
        run.gathered.words.items(),
        broken,
    )?;
    Ok(Answer {
        status: Status::Done,
        text: Listed::of(text),
    })
}

// The answer to a text, of which a run is made on threads.
fn run_to<R: Threads + Wait + Sync, G: Gate + Sync>(
    rt: &R,
    alloc: Global,
    asked: Asked,
    text: &[u8],
    gate: &G,
) -> Result<Answer, Memory>
    requires short { length text.now + 2 < 2 ^ 32 }
    requires run { asked.command ≡ Command.Run }
    ensures { IfOk result (λ a. IsAnswer asked text.now a) }
{
    match read_with_report(alloc, Ending::Text, text) {
        Ok((setup, _)) => run_answer(rt, alloc, &setup, gate, asked.batch, options_of(asked)),
        Err(InputError::Refused { line, why }) => refusal(alloc, line, why),
        Err(InputError::Memory) => Err(Memory),
    }
}

// The answer to a text, with the runs that are to be made on threads.
fn threads_answer<R: Threads + Wait + Sync, G: Gate + Sync>(
    rt: &R,
    alloc: Global,
    asked: Asked,
    text: &[u8],
    gate: &G,
) -> Result<Answer, Memory>
    requires { length text.now + 2 < 2 ^ 32 }
    ensures { IfOk result (λ a. IsAnswer asked text.now a) }
{
    match asked.command {
        Command::Run => run_to(rt, alloc, asked, text, gate),
        Command::Sample(number) => sample_answer(rt, alloc, number, gate, asked.batch),
        Command::Serial(_) | Command::Check | Command::Code | Command::Show | Command::Table => {
            answer_to(alloc, asked, text)
        }
        Command::Audit | Command::Replay(_) => answer_to(alloc, asked, text),
    }
}

// What is due for what was given.
fn due_for<R: Threads + Wait + Sync, G: Gate + Sync>(
    rt: &R,
    alloc: Global,
    given: &Given,
    gate: &G,
) -> Result<Due, Memory>
    requires { IsShort given.now }
    ensures value { IfOk result (λ d. IsDueFor given.now d) }
    ensures wants { OnErr result (IsText given.now) }
{
    match given {
        Given::NoCommand => Ok(Due::BadWords),
        Given::TooLong => Ok(Due::BadLength),
        Given::Text(asked, text) => {
            let answer = threads_answer(rt, alloc, *asked, text.items(), gate)?;
            Ok(Due::Answered(answer))
        }
    }
}

/// Does what is asked for, with the runs that are to be made on threads.
pub fn threaded_call<R: Threads + Wait + Sync, S: Source, K: Sink, G: Gate + Sync>(
    rt: &R,
    alloc: Global,
    asked: Asked,
    source: &mut S,
    sink: &mut K,
    gate: &G,
) -> Status
    ensures { TopCall (Some asked) (told (S.left source.old) (S.faults source.old))
        (told (S.left source.new) (S.faults source.new))
        (told (K.written sink.old) (K.faults sink.old)) (told (K.written sink.new) (K.faults sink.new)) result }
{
    let given = match read_given(alloc, Some(asked), source) {
        Ok(given) => given,
        Err(Stopped::ReadFault) => return Status::ReadFault,
        Err(Stopped::Memory) => return Status::Memory,
    };
    let Ok(due) = due_for(rt, alloc, &given, gate) else {
        return Status::Memory;
    };
    write_due(sink, &due)
}
