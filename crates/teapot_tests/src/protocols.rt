//! What protocols do with messages, one after the other, at a block of node 1 whose home is node 2.

use crate::shown::shown;
use crate::tests::{bare, block, handled, protocol, words};
use sample_rows::{
    DEAF_ROWS, DEEP_ROWS, DOUBLE_ROWS, DROP_ROWS, PING_PONG_ROWS, Row, STACHE_ROWS, WALK_ROWS,
};
use std::alloc::Global;
use std::test::Fail;
use teapot_samples::{DEAF, DEEP, DOUBLE, DROP, PING_PONG, STACHE, WALK};
use teapot_tree::Protocol;
use tw_base::{BlockId, Kind, Message};

// The kind that a word names, and whether such a message has data: a fault, or a message of the protocol.
fn kind_of(p: &Protocol, word: &str) -> Option<(Kind, bool)> {
    match word {
        "RD" => Some((Kind::RdFault, false)),
        "WR" => Some((Kind::WrFault, false)),
        _ => {
            let at = p
                .messages
                .items()
                .iter()
                .position(|m| m.name.is(word.as_bytes()))?;
            if at > 63 {
                return None;
            }
            let carries = p.messages.get(at)?.carries;
            Some((Kind::Named(at as u8), carries))
        }
    }
}

// The message that a word such as `GET@3` stands for, with a first word 9 where it has data.
fn message(p: &Protocol, word: &str, number: BlockId) -> Result<Message, Fail> {
    let (name, from) = word.split_once('@').unwrap_or((word, "1"));
    let Some((kind, carries)) = kind_of(p, name) else {
        return Err(Fail::new("no message of the protocol"));
    };
    let from = from
        .as_bytes()
        .first()
        .unwrap_or(&b'1')
        .saturating_sub(b'0');
    let mut message = bare(kind, from, number);
    if carries {
        message.payload = Some(words(9));
    }
    Ok(message)
}

// What the last of these messages does, where the block is in this state before the first.
fn last_shown(alloc: Global, p: &Protocol, state: u8, letters: &str) -> Result<String, Fail> {
    let number = BlockId::new(0).ok_or("block")?;
    let mut here = block(alloc, p, number)?;
    here.state.state = state;
    let mut last = String::new(alloc);
    for word in letters.split(' ') {
        let end = handled(alloc, p, &here, &message(p, word, number)?)?;
        last = shown(alloc, p, &end)?;
        here = end.here;
    }
    Ok(last)
}

fn are_done(
    rt: &impl std::process::Abort,
    alloc: Global,
    text: &str,
    rows: &[Row],
) -> Result<(), Fail> {
    let p = protocol(alloc, text.as_bytes())?;
    for (state, messages, due) in rows {
        let last = last_shown(alloc, &p, *state, messages)?;
        assert_eq!(rt; last.as_str(), *due);
    }
    Ok(())
}

#[test]
fn protocols(rt: HostRuntime) -> Result<(), Fail> {
    let alloc = rt.alloc();
    are_done(&rt, alloc, DEAF, &DEAF_ROWS)?;
    are_done(&rt, alloc, PING_PONG, &PING_PONG_ROWS)?;
    are_done(&rt, alloc, DOUBLE, &DOUBLE_ROWS)?;
    are_done(&rt, alloc, DEEP, &DEEP_ROWS)?;
    are_done(&rt, alloc, DROP, &DROP_ROWS)?;
    are_done(&rt, alloc, WALK, &WALK_ROWS)?;
    are_done(&rt, alloc, STACHE, &STACHE_ROWS)
}
