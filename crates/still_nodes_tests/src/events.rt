use std::alloc::Global;
use std::test::Fail;
use tw_base::{Chan, Event, NodeId};

fn node(word: &str) -> Option<NodeId> {
    NodeId::new(word.as_bytes().first()?.checked_sub(b'0')?)
}

fn chan(word: &str) -> Chan {
    if word == "0" { Chan::Zero } else { Chan::One }
}

/// The event that words such as `I 0`, `R 2` and `D 2 0 1` name: an instruction, a redelivery, or a delivery at node 2
/// from node 0 on channel 1.
fn event_of(text: &str) -> Option<Event> {
    let mut words = text.split(' ');
    match words.next()? {
        "I" => Some(Event::Instr(node(words.next()?)?)),
        "R" => Some(Event::Redeliver(node(words.next()?)?)),
        "D" => Some(Event::Deliver {
            at: node(words.next()?)?,
            from: node(words.next()?)?,
            chan: chan(words.next()?),
        }),
        _ => None,
    }
}

/// The events that are made, and with them those that are not enabled, if these are wanted too. What rows say of wires is left
/// out.
pub fn events(alloc: Global, rows: &str, all: bool) -> Result<Vec<Event>, Fail> {
    let mut events = Vec::new(alloc);
    for row in rows.split('\n') {
        let (asked, due) = row.split_once(": ").unwrap_or((row, "made"));
        if due == "made" || all && due == "not enabled" {
            events.push(event_of(asked).ok_or("a row that names no event")?)?;
        }
    }
    Ok(events)
}
