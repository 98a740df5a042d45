//! What a message did, as text.

ghost use Rattle.std.specs.Prelude.{◌<◌};

use crate::both::Both;
use handler_vm::Ran;
use std::alloc::Global;
use std::fmt::Write;
use std::test::Fail;
use teapot_meaning::Kept;
use teapot_tree::{MessageDecl, Protocol, State};
use tw_base::{End, Kind, Message, NodeId, NodeSet, Value};

fn text(bytes: &[u8]) -> &str {
    std::str::from_utf8(bytes).unwrap_or("?")
}

/// A value: a number, `true`, a node as `@3`, a set as `{14}`.
pub fn put_value(out: &mut String, value: Value) -> Result<(), Fail> {
    match value {
        Value::Int(n) => write!(out, "{n}")?,
        Value::Bool(b) => write!(out, "{b}")?,
        Value::Node(n) => write!(out, "@{}", n.get())?,
        Value::Set(set) => put_set(out, set)?,
    }
    Ok(())
}

fn put_set(out: &mut String, set: NodeSet) -> Result<(), Fail> {
    write!(out, "{{")?;
    for k in 0..8u8 {
        if let Some(node) = NodeId::new(k)
            && set.has(node)
        {
            write!(out, "{k}")?;
        }
    }
    write!(out, "}}")?;
    Ok(())
}

/// The first of these values, so many.
fn put_values(out: &mut String, values: &[Value], count: usize) -> Result<(), Fail> {
    write!(out, "(")?;
    for (k, value) in values.iter().enumerate() {
        if k >= count {
            break;
        }
        if k > 0 {
            write!(out, " ")?;
        }
        put_value(out, *value)?;
    }
    write!(out, ")")?;
    Ok(())
}

fn state_name(state: Option<&State>) -> &str {
    match state {
        Some(state) => text(state.name.bytes()),
        None => "?",
    }
}

fn arity(state: Option<&State>) -> usize {
    match state {
        Some(state) => state.params.len(),
        None => 0,
    }
}

fn message_name(message: Option<&MessageDecl>) -> &str {
    match message {
        Some(message) => text(message.name.bytes()),
        None => "?",
    }
}

fn put_state(out: &mut String, p: &Protocol, both: &Both, records: u8) -> Result<(), Fail> {
    let state = p.states.get(usize::from(both.cell.state));
    write!(out, "{}{records}", state_name(state))?;
    put_values(out, &both.cell.args, arity(state))
}

/// A message, its receiver, its arguments and the first word of its data: `GO>3(7 true)+5`.
fn put_send(out: &mut String, p: &Protocol, send: &Message) -> Result<(), Fail> {
    match send.kind {
        Kind::Named(number) => write!(
            out,
            "{}",
            message_name(p.messages.get(usize::from(number)))
        )?,
        _ => write!(out, "?")?,
    }
    write!(out, ">{}", send.to.get())?;
    put_values(out, &send.args, usize::from(send.arg_count))?;
    if let Some(data) = send.payload {
        write!(out, "+{}", data.words[0])?;
    }
    Ok(())
}

fn put_sends(out: &mut String, p: &Protocol, sends: &[Message]) -> Result<(), Fail> {
    for send in sends {
        write!(out, " ")?;
        put_send(out, p, send)?;
    }
    Ok(())
}

fn put_end(out: &mut String, end: End) -> Result<(), Fail> {
    match end {
        End::Fine => {}
        End::Failed(number) => write!(out, " failed {number}")?,
        End::TooDeep => write!(out, " too deep")?,
    }
    Ok(())
}

fn put_marks(out: &mut String, ran: &Ran) -> Result<(), Fail> {
    match ran.kept {
        Kept::No => {}
        Kept::Stale => write!(out, " stale")?,
        Kept::Eligible => write!(out, " eligible")?,
    }
    if ran.freed {
        write!(out, " freed")?;
    }
    if ran.woke {
        write!(out, " woke")?;
    }
    Ok(())
}

/// The state and how many records there are, the tag, the first word and the infos; then what was sent, the marks and the
/// end.
pub fn shown(
    alloc: Global,
    p: &Protocol,
    both: &Both,
    records: u8,
    ran: &Ran,
) -> Result<String, Fail>
    requires { both.now.here.block < both.now.blocks.shape.blocks }
{
    let mut out = String::new(alloc);
    let block = both.here.block;
    put_state(&mut out, p, both, records)?;
    let words = both.blocks.words(block);
    write!(out, " {:?} {} ", both.blocks.tag(block), words.words[0])?;
    put_values(&mut out, &both.cell.infos, p.infos.len())?;
    put_sends(&mut out, p, both.around.sends())?;
    put_marks(&mut out, ran)?;
    put_end(&mut out, ran.end)?;
    Ok(out)
}
