//! Protocols that lead nowhere, run on threads in whatever schedule comes.

use crate::calls::{ROOM, words};
use node_runtime::OpenGate;
use std::alloc::Global;
use std::process::Abort;
use std::sync::Wait;
use std::test::Fail;
use std::thread::Threads;
use teapot_samples::{DEAF, DEEP, DOUBLE, PING_PONG};
use tempest_run::{Status, tempest};
use tw_io::{MemSink, MemSource};

/// How often each text is run.
const TIMES: u32 = 10;

/// Node 1 loads a word of node 0.
const LOAD: &str = "tempest 1
nodes 2
words 1
blocks 1
program 1
ld r1 r0 0
halt
end
";

/// The same with two instructions at most.
const SHORT_LOAD: &str = "tempest 1
nodes 2
words 1
blocks 1
budget 2
program 1
ld r1 r0 0
halt
end
";

/// Node 0 stores a word of node 1, which loads it, too.
const STORE_AND_LOAD: &str = "tempest 1
nodes 2
words 1
blocks 2
program 0
li r1 7
st r1 r0 1
ld r2 r0 1
halt
end
program 1
ld r3 r0 0
ld r4 r0 1
halt
end
";

const DEAF_REPORT: &str = "tempest report 1 nodes 2 words 1 blocks 1 budget 4000
node 0 halted place 0 instructions 1 handlers 1
node 1 stuck place 0 instructions 1 handlers 0
history agrees
end
";

#[derive(Drop)]
struct Answer {
    status: Status,
    sink: MemSink,
}

impl Answer {
    // The place of the first line with this end.
    fn line_with_end(&self, end: &str) -> Option<usize> {
        self.sink
            .bytes()
            .split(|byte| *byte == b'\n')
            .position(|line| line.ends_with(end.as_bytes()))
    }
}

fn run<R: Threads + Wait + Sync>(
    rt: &R,
    alloc: Global,
    asked: &str,
    text: &str,
    protocol: &str,
) -> Result<Answer, Fail> {
    let words = words(alloc, asked)?;
    let whole = format!(in alloc; "{text}protocol\n{protocol}end\n")?;
    let bytes = whole.as_bytes().to_vec(alloc)?;
    let mut source = MemSource::new(bytes, 40, Vec::new(alloc));
    let mut sink = MemSink::new(alloc, ROOM, 16, Vec::new(alloc))?;
    let status = tempest(rt, alloc, &words, &mut source, &mut sink, &OpenGate);
    Ok(Answer { status, sink })
}

#[test]
fn load_is_never_answered(rt: HostRuntime) -> Result<(), Fail> {
    for _ in 0..TIMES {
        let answer = run(&rt, rt.alloc(), "run", LOAD, DEAF)?;
        assert_eq!(rt; answer.status, Status::Unfinished);
        assert_eq!(rt; answer.sink.bytes(), DEAF_REPORT.as_bytes());
    }
    Ok(())
}

// Some node does not halt, and no load is broken, since none completes.
fn expect_no_load<R: Threads + Wait + Abort + Sync>(
    rt: &R,
    alloc: Global,
    text: &str,
    protocol: &str,
) -> Result<(), Fail> {
    for _ in 0..TIMES {
        let answer = run(rt, alloc, "run", text, protocol)?;
        assert_eq!(rt; answer.status, Status::Unfinished);
        assert!(rt; answer.line_with_end("history agrees").is_some());
    }
    Ok(())
}

#[test]
fn messages_without_end_come_to_one(rt: HostRuntime) -> Result<(), Fail> {
    expect_no_load(&rt, rt.alloc(), SHORT_LOAD, PING_PONG)
}

#[test]
fn suspensions_that_are_too_deep_fail(rt: HostRuntime) -> Result<(), Fail> {
    expect_no_load(&rt, rt.alloc(), LOAD, DEEP)
}

// Node 1 always reads 0 there. One memory would give it 7 where node 0 has stored that before.
fn expect_history(rt: &impl Abort, answer: &Answer) -> Result<(), Fail> {
    let store = answer.line_with_end(" node 0 st 1 7").ok_or("no store")?;
    let load = answer.line_with_end(" node 1 ld 1 0").ok_or("no load")?;
    let broken = answer.line_with_end(" node 1 address 1 read 0 due 7");
    assert_eq!(rt; broken.is_some(), store < load);
    let agrees = answer.line_with_end("history agrees");
    assert_eq!(rt; agrees.is_some(), load < store);
    Ok(())
}

#[test]
fn history_breaks_where_the_store_is_first(rt: HostRuntime) -> Result<(), Fail> {
    for _ in 0..TIMES {
        let answer = run(&rt, rt.alloc(), "run --journal", STORE_AND_LOAD, DOUBLE)?;
        assert_eq!(rt; answer.status, Status::Done);
        expect_history(&rt, &answer)?;
    }
    Ok(())
}
