//! What compiled protocols do with messages, one after the other, at a block of node 1 whose home is node 2, against
//! results worked out by hand.

ghost use Rattle.std.specs.Prelude.{◌^◌, ◌<◌, OnOk, length};
ghost use Rattle.compiled_meaning.specs.Whole.{IsCode};
ghost use Rattle.compiled_handlers_tests.specs.Alike.{Alike};

use crate::both::{Both, first, go_on, handled, records};
use crate::messages::{fault, plain};
use crate::protocols::{compiled, protocol};
use crate::shown::shown;
use block_tags::Blocks;
use handler_code::Code;
use sample_rows::{DEAF_ROWS, DEEP_ROWS, DOUBLE_ROWS, PING_PONG_ROWS, Row, STACHE_ROWS, WALK_ROWS};
use std::alloc::Global;
use std::process::Abort;
use std::test::Fail;
use teapot_samples::{DEAF, DEEP, DOUBLE, PING_PONG, STACHE, WALK};
use teapot_tree::{Checked, Protocol};
use tw_base::{BlockId, Kind, Message, NodeId, Shape, Tag};

// One block, of one word, 5.
fn blocks(alloc: Global) -> Result<Blocks, Fail> {
    let shape = Shape::new(8, 1, 1, 1).ok_or("limits")?;
    let me = NodeId::new(1).ok_or("node")?;
    Ok(Blocks::new(alloc, shape, me, Tag::Invalid, Tag::Invalid, &[(0, 5)])?)
}

/// The message that a word such as `GET@3` stands for, with the word 9 where it has data.
pub fn message(p: &Protocol, word: &str, block: BlockId) -> Result<Message, Fail> {
    let (name, from) = word.split_once('@').unwrap_or((word, "1"));
    let digit = from.as_bytes().first().unwrap_or(&b'1');
    let from = NodeId::new(digit.saturating_sub(b'0')).ok_or("node")?;
    match name {
        "RD" => Ok(fault(Kind::RdFault, from, block)),
        "WR" => Ok(fault(Kind::WrFault, from, block)),
        _ => named(p, name, from, block),
    }
}

fn named(p: &Protocol, name: &str, from: NodeId, block: BlockId) -> Result<Message, Fail> {
    for (k, decl) in p.messages.items().iter().enumerate() {
        if decl.name.is(name.as_bytes()) && k < 64 {
            return Ok(plain(decl, k as u8, from, block, 9));
        }
    }
    Err(Fail::new("no message of the protocol"))
}

// What a message does.
fn done(
    alloc: Global,
    code: &Code,
    p: &Checked,
    both: &mut Both,
    m: &Message,
) -> Result<String, Fail>
    requires code { IsCode p.now code.now }
    requires short { length code.now.ops < 2 ^ 22 }
    requires alike { Alike p.now code.now (record { cell = both.old.cell; blocks = both.old.blocks; conts = both.old.conts })
        both.old.here }
    ensures { OnOk result
        (Alike p.now code.now (record { cell = both.new.cell; blocks = both.new.blocks; conts = both.new.conts })
        both.new.here) }
{
    let (ran, end) = handled(alloc, code, p, both, m)?;
    let text = shown(alloc, p.protocol(), both, records(both), &ran)?;
    go_on(code, both, end)?;
    Ok(text)
}

// What the last of these messages does, where the block is in this state before the first.
fn last_shown(
    alloc: Global,
    code: &Code,
    p: &Checked,
    state: u8,
    messages: &str,
) -> Result<String, Fail>
    requires code { IsCode p.now code.now }
    requires short { length code.now.ops < 2 ^ 22 }
{
    let block = BlockId::new(0).ok_or("block")?;
    let mut both = first(alloc, p, state, blocks(alloc)?, block)?;
    let mut last = String::new(alloc);
    for word in messages.split(' ') {
        let m = message(p.protocol(), word, block)?;
        last = done(alloc, code, p, &mut both, &m)?;
    }
    Ok(last)
}

fn are_done(rt: &impl Abort, alloc: Global, text: &str, rows: &[Row]) -> Result<(), Fail> {
    let p = protocol(alloc, text.as_bytes())?;
    let code = compiled(alloc, &p)?;
    for (state, messages, due) in rows {
        let last = last_shown(alloc, &code, &p, *state, messages)?;
        assert_eq!(rt; last.as_str(), *due, "{messages}");
    }
    Ok(())
}

#[test]
fn compiled_protocols(rt: HostRuntime) -> Result<(), Fail> {
    let alloc = rt.alloc();
    are_done(&rt, alloc, DEAF, &DEAF_ROWS)?;
    are_done(&rt, alloc, PING_PONG, &PING_PONG_ROWS)?;
    are_done(&rt, alloc, DOUBLE, &DOUBLE_ROWS)?;
    are_done(&rt, alloc, DEEP, &DEEP_ROWS)?;
    are_done(&rt, alloc, WALK, &WALK_ROWS)?;
    are_done(&rt, alloc, STACHE, &STACHE_ROWS)
}
