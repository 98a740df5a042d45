use dsm_model::Global;
use printed_text::Names;
use std::alloc;
use std::fmt::Write;
use std::test::Fail;
use tw_base::{Chan, Event, NodeId};

fn node(word: &str) -> Option<NodeId> {
    NodeId::new(word.as_bytes().first()?.checked_sub(b'0')?)
}

fn chan(word: &str) -> Chan {
    if word == "0" { Chan::Zero } else { Chan::One }
}

/// The event that words such as `I 0`, `R 2` and `D 2 0 1` name: an instruction, a redelivery, or a delivery at node 2
/// from node 0 on channel 1.
pub fn event_of(text: &str) -> Option<Event> {
    let mut words = text.split(' ');
    match words.next()? {
        "I" => Some(Event::Instr(node(words.next()?)?)),
        "R" => Some(Event::Redeliver(node(words.next()?)?)),
        "D" => Some(Event::Deliver {
            at: node(words.next()?)?,
            from: node(words.next()?)?,
            chan: chan(words.next()?),
        }),
        _ => None,
    }
}

/// The wire that words such as `W 0 2 1` name: from node 0 to node 2 on channel 1.
pub fn wire_of(text: &str) -> Option<(NodeId, NodeId, Chan)> {
    let mut words = text.strip_prefix("W ")?.split(' ');
    let from = node(words.next()?)?;
    let to = node(words.next()?)?;
    Some((from, to, chan(words.next()?)))
}

/// How many messages are on a wire, and each of them.
pub fn wire_line(
    alloc: alloc::Global,
    names: &Names,
    g: &Global,
    from: NodeId,
    to: NodeId,
    chan: Chan,
) -> Result<String, Fail> {
    let mut out = String::new(alloc);
    if from.get() >= g.setup().shape().nodes() {
        return Ok(out);
    }
    let count = g.held(from, to, chan);
    write!(out, "{count}")?;
    for k in 0..count {
        if let Some(message) = g.message(from, to, chan, k) {
            let kind = std::str::from_utf8(names.kind(message.kind)).unwrap_or("?");
            let (block, number, stamp) = (message.block.get(), message.number, message.stamp);
            write!(out, " {kind} block {block} number {number} stamp {stamp}")?;
        }
    }
    Ok(out)
}
