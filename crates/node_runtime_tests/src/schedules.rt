use crate::gates::{Hold, Holding};
use crate::machines::{ALONE, ALONE_REPORT, BOTH, SEVEN_READERS, STORE_AND_LOAD};
use crate::runs::{Run, run_text};
use node_runtime::OpenGate;
use std::alloc::Global;
use std::process::Abort;
use std::sync::Wait;
use std::test::Fail;
use std::thread::Threads;
use tw_base::{Act, Entry};

/// Runs under holds, of which none ends in vain.
fn held<R: Threads + Wait + Abort + Sync>(
    rt: &R,
    alloc: Global,
    text: &str,
    holds: &[Hold],
) -> Result<Run, Fail> {
    let gate = Holding::new(holds);
    let run = run_text(rt, alloc, text, &gate, 16)?;
    assert_eq!(rt; gate.in_vain(), 0, "a wait ended in vain");
    assert!(rt; gate.calls(0) > 0);
    assert!(rt; gate.calls(1) > 0);
    Ok(run)
}

#[test]
fn workers_run_beside_each_other(rt: HostRuntime) -> Result<(), Fail> {
    let hold = Hold {
        worker: 0,
        turn: 0,
        until: 1,
        at: 0,
    };
    let run = held(&rt, rt.alloc(), ALONE, &[hold])?;
    assert_eq!(rt; run.report.as_slice(), ALONE_REPORT.as_bytes());
    Ok(())
}

/// The reader asks and is answered before the writer begins: it is held until its answer has come, and the writer until the
/// reader has read.
const READS_FIRST: [Hold; 4] = [
    Hold {
        worker: 1,
        turn: 0,
        until: 2,
        at: 1,
    },
    Hold {
        worker: 3,
        turn: 0,
        until: 1,
        at: 1,
    },
    Hold {
        worker: 2,
        turn: 1,
        until: 3,
        at: 1,
    },
    Hold {
        worker: 0,
        turn: 0,
        until: 2,
        at: 2,
    },
];

/// The reader begins when the writer has written.
const WRITES_FIRST: [Hold; 1] = [Hold {
    worker: 2,
    turn: 0,
    until: 0,
    at: 1,
}];

#[test]
fn two_schedules_give_two_reports(rt: HostRuntime) -> Result<(), Fail> {
    let early = held(&rt, rt.alloc(), STORE_AND_LOAD, &READS_FIRST)?;
    assert!(rt; early.has_line("print 1 0"));
    assert!(rt; early.has_line("word 0 1"));
    assert!(rt; early.has_line("history agrees"));
    let late = held(&rt, rt.alloc(), STORE_AND_LOAD, &WRITES_FIRST)?;
    assert!(rt; late.has_line("print 1 1"));
    assert!(rt; late.has_line("word 0 1"));
    assert!(rt; late.has_line("history agrees"));
    Ok(())
}

/// How many prints of a number there are.
fn prints_of(journal: &[Entry], number: u64) -> usize {
    journal
        .iter()
        .filter(|entry| matches!(entry.act, Act::Print { value } if value == number))
        .count()
}

/// A run in whatever schedule comes, where turns have at most q events.
fn both_are_told<R: Threads + Wait + Abort + Sync>(
    rt: &R,
    alloc: Global,
    q: u32,
) -> Result<(), Fail> {
    let run = run_text(rt, alloc, BOTH, &OpenGate, q)?;
    let zeros = prints_of(run.journal.items(), 0);
    let ones = prints_of(run.journal.items(), 1);
    assert!(rt; zeros < 2, "both nodes read the word of before");
    assert!(rt; zeros <= 2 && ones <= 2 && zeros + ones == 2);
    assert!(rt; run.has_line("history agrees"));
    Ok(())
}

#[test]
fn of_two_that_store_and_load_one_sees_the_other(rt: HostRuntime) -> Result<(), Fail> {
    for _ in 0..10 {
        both_are_told(&rt, rt.alloc(), 1)?;
        both_are_told(&rt, rt.alloc(), 16)?;
    }
    Ok(())
}

#[test]
fn eight_nodes_run(rt: HostRuntime) -> Result<(), Fail> {
    let run = run_text(&rt, rt.alloc(), SEVEN_READERS, &OpenGate, 16)?;
    assert!(rt; run.has_line("word 7 9"));
    assert!(rt; run.has_line("register 7 1 9"));
    assert!(rt; run.has_line("history agrees"));
    Ok(())
}
