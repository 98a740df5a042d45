//! Long rows of messages, each of which both sides handle alike.

ghost use Rattle.std.specs.Prelude.{◌^◌, ◌<◌, OnOk, length};
ghost use Rattle.compiled_meaning.specs.Whole.{IsCode};
ghost use Rattle.compiled_handlers_tests.specs.Alike.{Alike};

use crate::both::{Both, first, go_on, handled, is_plain};
use crate::chain::depth;
use crate::messages::any_message;
use crate::parts::part;
use crate::protocols::{EACH_KIND, LOOPS, compiled, protocol};
use block_tags::Blocks;
use handler_code::Code;
use handler_vm::Ran;
use std::alloc::Global;
use std::fmt::Write;
use std::process::Abort;
use std::test::Fail;
use teapot_meaning::{Ended, Kept};
use teapot_samples::{DEAF, DEEP, DOUBLE, PING_PONG, STACHE, WALK};
use teapot_tree::Checked;
use tw_base::{BlockId, Data, End, NodeId, Shape, Tag};

// How many messages did what.
#[derive(Clone, Copy, Debug, PartialEq, Eq)]
struct Counts {
    starts: u32,
    messages: u32,
    suspended: u32,
    resumed: u32,
    // resumed, and suspended again
    again: u32,
    failed: u32,
    too_deep: u32,
    deferred: u32,
    woke: u32,
    sent: u32,
    with_data: u32,
    deepest: u8,
}

fn nothing() -> Counts {
    Counts {
        starts: 0,
        messages: 0,
        suspended: 0,
        resumed: 0,
        again: 0,
        failed: 0,
        too_deep: 0,
        deferred: 0,
        woke: 0,
        sent: 0,
        with_data: 0,
        deepest: 0,
    }
}

fn add(count: &mut u32, holds: bool) {
    if holds {
        *count = count.saturating_add(1);
    }
}

// Counts what a message did, before which there were so many suspensions.
fn count(counts: &mut Counts, before: u8, ran: &Ran, end: &Ended) {
    let after = depth(&end.here.state, 9);
    let suspended = ran.records > 0;
    let resumed = after < before.saturating_add(ran.records);
    add(&mut counts.messages, true);
    add(&mut counts.suspended, suspended);
    add(&mut counts.resumed, resumed);
    add(&mut counts.again, resumed && suspended);
    add(&mut counts.failed, matches!(ran.end, End::Failed(_)));
    add(&mut counts.too_deep, ran.end == End::TooDeep);
    add(&mut counts.woke, ran.woke);
    add(&mut counts.deferred, ran.kept != Kept::No);
    for send in end.sends.items() {
        add(&mut counts.sent, true);
        add(&mut counts.with_data, send.payload.is_some());
    }
    if after > counts.deepest {
        counts.deepest = after;
    }
}

// Blocks of three words, with values.
fn blocks(alloc: Global) -> Result<Blocks, Fail> {
    let shape = Shape::new(8, 3, 2, 1).ok_or("limits")?;
    let me = NodeId::new(1).ok_or("node")?;
    let init = [(0, 11), (2, 12), (3, 13), (4, 14), (5, 15)];
    Ok(Blocks::new(alloc, shape, me, Tag::ReadWrite, Tag::ReadOnly, &init)?)
}

// The next message of a row, which both sides handle alike.
fn turn(
    rt: &impl Abort,
    alloc: Global,
    code: &Code,
    p: &Checked,
    both: &mut Both,
    dice: &mut u64,
    counts: &mut Counts,
) -> Result<(), Fail>
    requires code { IsCode p.now code.now }
    requires short { length code.now.ops < 2 ^ 22 }
    requires alike { Alike p.now code.now (record { cell = both.old.cell; blocks = both.old.blocks; conts = both.old.conts })
        both.old.here }
    ensures { OnOk result
        (Alike p.now code.now (record { cell = both.new.cell; blocks = both.new.blocks; conts = both.new.conts })
        both.new.here) }
{
    let m = any_message(p.protocol(), dice, both.here.me, both.here.block, 3)?;
    let before = depth(&both.here.state, 9);
    let (ran, end) = handled(alloc, code, p, both, &m)?;
    let part = part(p.protocol(), both, &ran, &end);
    assert_eq!(rt; part, "", "message {}", counts.messages);
    count(counts, before, &ran, &end);
    go_on(code, both, end)
}

// Whether the block that no message is for is as it was.
fn keeps_the_other(both: &Both) -> bool {
    let words = Data {
        words: [11, 0, 12, 0, 0, 0, 0, 0],
        len: 3,
    };
    match BlockId::new(0) {
        Some(other) if other.get() < both.blocks.shape().blocks() => {
            both.blocks.tag(other) == Tag::ReadOnly && both.blocks.words(other) == words
        }
        _ => false,
    }
}

// A row of messages from a state on.
fn row(
    rt: &impl Abort,
    alloc: Global,
    code: &Code,
    p: &Checked,
    state: u8,
    counts: &mut Counts,
) -> Result<(), Fail>
    requires code { IsCode p.now code.now }
    requires short { length code.now.ops < 2 ^ 22 }
{
    let block = BlockId::new(1).ok_or("block")?;
    let mut both = first(alloc, p, state, blocks(alloc)?, block)?;
    let mut dice = u64::from(state) + 7;
    for k in 0..TIMES {
        turn(rt, alloc, code, p, &mut both, &mut dice, counts)?;
    }
    assert!(rt;
        keeps_the_other(&both),
        "the other block from state {state}"
    );
    add(&mut counts.starts, true);
    Ok(())
}

// Rows of messages from each state that a block may begin in.
fn rows(rt: &impl Abort, alloc: Global, text: &str) -> Result<Counts, Fail> {
    let p = protocol(alloc, text.as_bytes())?;
    let code = compiled(alloc, &p)?;
    let mut counts = nothing();
    for (k, state) in p.protocol().states.items().iter().enumerate() {
        if is_plain(state) && k < 64 {
            row(rt, alloc, &code, &p, k as u8, &mut counts)?;
        }
    }
    Ok(counts)
}

// What messages did, each at least once.
fn done(alloc: Global, counts: &Counts) -> Result<String, Fail> {
    let all = [
        ("suspended", counts.suspended),
        ("resumed", counts.resumed),
        ("again", counts.again),
        ("failed", counts.failed),
        ("deep", counts.too_deep),
        ("deferred", counts.deferred),
        ("woke", counts.woke),
        ("sent", counts.sent),
        ("data", counts.with_data),
    ];
    let mut words = String::new(alloc);
    for (word, count) in all {
        if count > 0 {
            write!(words, " {word}")?;
        }
    }
    Ok(words)
}

#[test]
fn rows_of_messages(rt: HostRuntime) -> Result<(), Fail> {
    let alloc = rt.alloc();
    for (text, starts, deepest, due) in &ROWS {
        let counts = rows(&rt, alloc, text)?;
        assert_eq!(rt; counts.starts, *starts);
        assert_eq!(rt; counts.messages, starts.saturating_mul(TIMES));
        assert_eq!(rt; counts.deepest, *deepest);
        assert_eq!(rt; done(alloc, &counts)?.as_str(), *due);
    }
    Ok(())
}

// How many messages a row has.
const TIMES: u32 = 400;

// A protocol, in how many states a block may begin, how many records there are at most, and what messages do.
type Row = (&'static str, u32, u8, &'static str);

static ROWS: [Row; 8] = [
    (DEAF, 2, 0, " sent"),
    (PING_PONG, 2, 0, " sent"),
    (DOUBLE, 2, 0, " failed woke sent data"),
    (DEEP, 2, 8, " suspended deep sent"),
    (
        WALK,
        2,
        1,
        " suspended resumed again deferred woke sent data",
    ),
    (
        STACHE,
        6,
        1,
        " suspended resumed failed deferred woke sent data",
    ),
    (
        EACH_KIND,
        2,
        8,
        " suspended resumed again failed deep deferred woke sent data",
    ),
    (
        LOOPS,
        1,
        8,
        " suspended resumed again failed deep deferred woke sent data",
    ),
];
