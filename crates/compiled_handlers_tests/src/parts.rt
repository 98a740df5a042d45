//! The parts in which what the code left may differ from what the interpreter left.

ghost use Rattle.std.specs.Prelude.{◌<◌};

use crate::both::Both;
use handler_vm::Ran;
use teapot_meaning::{Ended, Here, Out};
use teapot_tree::Protocol;
use tw_base::{Chan, Kind, Message, Value};

/// Whether the places hold these values first, and 0 past them.
pub fn hold(places: &[Value], values: &[Value]) -> bool {
    for (k, place) in places.iter().enumerate() {
        let due = values.get(k).copied().unwrap_or(Value::Int(0));
        if *place != due {
            return false;
        }
    }
    values.len() <= places.len()
}

fn chan_of(p: &Protocol, kind: Kind) -> Option<Chan> {
    match kind {
        Kind::Named(number) => Some(p.messages.get(usize::from(number))?.chan),
        _ => None,
    }
}

// Whether a message is what a handler sends from this block, on the channel of its declaration.
fn same_send(p: &Protocol, here: &Here, m: &Message, out: &Out) -> bool {
    m.to == out.to
        && m.kind == out.kind
        && usize::from(m.arg_count) == out.args.len()
        && hold(&m.args, out.args.items())
        && m.payload == out.payload
        && m.from == here.me
        && m.block == here.block
        && Some(m.chan) == chan_of(p, m.kind)
        && m.number == 0
        && m.stamp == 0
}

fn same_sends(p: &Protocol, here: &Here, sent: &[Message], outs: &[Out]) -> bool {
    for (k, m) in sent.iter().enumerate() {
        match outs.get(k) {
            Some(out) if same_send(p, here, m, out) => {}
            _ => return false,
        }
    }
    sent.len() == outs.len()
}

// The part of the cell and the block that differs, "" if none does.
fn cell_part(both: &Both, here: &Here) -> &'static str
    requires { both.now.here.block < both.now.blocks.shape.blocks }
{
    let block = both.here.block;
    if here.block != block {
        "block"
    } else if both.blocks.tag(block) != here.tag {
        "tag"
    } else if both.blocks.words(block) != here.words {
        "words"
    } else if !hold(&both.cell.infos, here.infos.items()) {
        "infos"
    } else if both.cell.state != here.state.state {
        "state"
    } else if !hold(&both.cell.args, here.state.args.items()) {
        "arguments"
    } else {
        ""
    }
}

// The part of how the handler ended that differs, "" if none does.
fn end_part(ran: &Ran, end: &Ended) -> &'static str {
    if ran.kept != end.kept {
        "kept"
    } else if ran.freed != end.freed {
        "freed"
    } else if ran.woke != end.woke {
        "woke"
    } else if ran.end != end.end {
        "end"
    } else {
        ""
    }
}

/// The part that differs after a message, but for the records, "" if none does.
pub fn part(p: &Protocol, both: &Both, ran: &Ran, end: &Ended) -> &'static str
    requires { both.now.here.block < both.now.blocks.shape.blocks }
{
    if !same_sends(p, &end.here, both.around.sends(), end.sends.items()) {
        return "sends";
    }
    let part = end_part(ran, end);
    if part.is_empty() {
        cell_part(both, &end.here)
    } else {
        part
    }
}
