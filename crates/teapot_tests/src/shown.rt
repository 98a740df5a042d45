use std::alloc::Global;
use std::fmt::Write;
use std::test::Fail;
use teapot_meaning::{Ended, Kept, Out, StateVal};
use teapot_tree::{MessageDecl, Protocol, State};
use tw_base::{End, Kind, NodeSet, Value};

fn text(bytes: &[u8]) -> &str {
    std::str::from_utf8(bytes).unwrap_or("?")
}

/// A value: a number, `true`, a node as `@3`, a set as `{14}`.
fn put_value(out: &mut String, value: Value) -> Result<(), Fail> {
    match value {
        Value::Int(n) => write!(out, "{n}")?,
        Value::Bool(b) => write!(out, "{b}")?,
        Value::Node(n) => write!(out, "@{}", n.get())?,
        Value::Set(set) => put_set(out, set)?,
    }
    Ok(())
}

fn put_set(out: &mut String, set: NodeSet) -> Result<(), Fail> {
    write!(out, "{{")?;
    for k in 0..8u8 {
        if let Some(node) = tw_base::NodeId::new(k)
            && set.has(node)
        {
            write!(out, "{k}")?;
        }
    }
    write!(out, "}}")?;
    Ok(())
}

fn put_values(out: &mut String, values: &[Value]) -> Result<(), Fail> {
    write!(out, "(")?;
    for (k, value) in values.iter().enumerate() {
        if k > 0 {
            write!(out, " ")?;
        }
        put_value(out, *value)?;
    }
    write!(out, ")")?;
    Ok(())
}

/// How many suspensions a state holds, 9 for more than 8.
fn depth(state: &StateVal, most: u8) -> u8 {
    if most == 0 {
        return 0;
    }
    match &state.cont {
        Some(cont) => 1u8.saturating_add(depth(cont.get().saved.get(), most - 1)),
        None => 0,
    }
}

fn state_name(state: Option<&State>) -> &str {
    match state {
        Some(state) => text(state.name.bytes()),
        None => "?",
    }
}

fn message_name(message: Option<&MessageDecl>) -> &str {
    match message {
        Some(message) => text(message.name.bytes()),
        None => "?",
    }
}

fn put_state(out: &mut String, p: &Protocol, state: &StateVal) -> Result<(), Fail> {
    let name = state_name(p.states.get(usize::from(state.state)));
    write!(out, "{name}{}", depth(state, 9))?;
    put_values(out, state.args.items())
}

/// A message, its receiver, its arguments and the first word of its data: `GO>3(7 true)+5`.
fn put_send(out: &mut String, p: &Protocol, send: &Out) -> Result<(), Fail> {
    match send.kind {
        Kind::Named(number) => write!(
            out,
            "{}",
            message_name(p.messages.get(usize::from(number)))
        )?,
        _ => write!(out, "?")?,
    }
    write!(out, ">{}", send.to.get())?;
    put_values(out, send.args.items())?;
    if let Some(data) = send.payload {
        write!(out, "+{}", data.words[0])?;
    }
    Ok(())
}

fn put_sends(out: &mut String, p: &Protocol, sends: &[Out]) -> Result<(), Fail> {
    for send in sends {
        write!(out, " ")?;
        put_send(out, p, send)?;
    }
    Ok(())
}

fn put_end(out: &mut String, end: End) -> Result<(), Fail> {
    match end {
        End::Fine => {}
        End::Failed(number) => write!(out, " failed {number}")?,
        End::TooDeep => write!(out, " too deep")?,
    }
    Ok(())
}

fn put_marks(out: &mut String, end: &Ended) -> Result<(), Fail> {
    match end.kept {
        Kept::No => {}
        Kept::Stale => write!(out, " stale")?,
        Kept::Eligible => write!(out, " eligible")?,
    }
    if end.freed {
        write!(out, " freed")?;
    }
    if end.woke {
        write!(out, " woke")?;
    }
    Ok(())
}

/// The state and its depth, the tag, the first word and the infos; then what was sent, the marks and the end.
pub fn shown(alloc: Global, p: &Protocol, end: &Ended) -> Result<String, Fail> {
    let mut out = String::new(alloc);
    put_state(&mut out, p, &end.here.state)?;
    write!(out, " {:?} {} ", end.here.tag, end.here.words.words[0])?;
    put_values(&mut out, end.here.infos.items())?;
    put_sends(&mut out, p, end.sends.items())?;
    put_marks(&mut out, end)?;
    put_end(&mut out, end.end)?;
    Ok(out)
}
