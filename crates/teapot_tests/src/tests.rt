use crate::rows::{LOOP_ROWS, ROWS};
use crate::shown::shown;
use std::alloc::Global;
use std::fmt::Write;
use std::process::Abort;
use std::test::Fail;
use teapot_interpreter::{is_served, run_in};
use teapot_meaning::{Ended, Here, StateVal};
use teapot_parse::parse;
use teapot_tree::{Protocol, ValType};
use tw_base::{BlockId, Chan, Data, End, Kind, Listed, Message, NodeId, NodeSet, Tag, Value};
use tw_lex::lines;

fn node(number: u8) -> NodeId {
    NodeId::new(number).unwrap_or(NodeId::new(0).unwrap())
}

pub fn words(first: u64) -> Data {
    Data {
        words: [first, 0, 0, 0, 0, 0, 0, 0],
        len: 1,
    }
}

fn zero(ty: ValType) -> Value {
    match ty {
        ValType::Int => Value::Int(0),
        ValType::Bool => Value::Bool(false),
        ValType::Node => Value::Node(node(0)),
        ValType::Set => Value::Set(NodeSet::empty()),
    }
}

// The block of node 1 whose home is node 2, in the first state, with a first word 5.
pub fn block(alloc: Global, p: &Protocol, number: BlockId) -> Result<Here, Fail> {
    let mut infos = Listed::new(alloc);
    for info in p.infos.items() {
        infos.push(zero(info.ty))?;
    }
    Ok(Here {
        me: node(1),
        home: node(2),
        block: number,
        infos,
        state: StateVal {
            state: 0,
            args: Listed::new(alloc),
            cont: None,
        },
        tag: Tag::Invalid,
        words: words(5),
    })
}

// A message with no argument, or a fault of node 1.
pub fn bare(kind: Kind, from: u8, block: BlockId) -> Message {
    Message {
        kind,
        block,
        from: node(from),
        to: node(1),
        chan: Chan::Zero,
        number: 0,
        stamp: 0,
        args: [Value::Int(0); 4],
        arg_count: 0,
        payload: None,
    }
}

// A message with arguments 3, true, node 3 and a set, and with a first word 9.
fn full(set: NodeSet, block: BlockId) -> Message {
    Message {
        kind: Kind::Named(0),
        block,
        from: node(3),
        to: node(1),
        chan: Chan::Zero,
        number: 0,
        stamp: 0,
        args: [
            Value::Int(3),
            Value::Bool(true),
            Value::Node(node(3)),
            Value::Set(set),
        ],
        arg_count: 4,
        payload: Some(words(9)),
    }
}

fn everyone() -> NodeSet {
    let mut set = NodeSet::empty();
    for k in 0..8 {
        set = set.with(node(k));
    }
    set
}

// What a letter of a row stands for: GO with the set of 1 and 4, with all nodes or with none; UP; the faults.
fn message(letter: u8, block: BlockId) -> Message {
    match letter {
        b'g' => full(NodeSet::one(node(1)).with(node(4)), block),
        b'a' => full(everyone(), block),
        b'e' => full(NodeSet::empty(), block),
        b'u' => bare(Kind::Named(1), 6, block),
        b'r' => bare(Kind::RdFault, 1, block),
        _ => bare(Kind::WrFault, 1, block),
    }
}

pub fn protocol(alloc: Global, text: &[u8]) -> Result<Protocol, Fail> {
    if text.len() > 2_000_000 {
        return Err(Fail::new("a long text"));
    }
    let lexed = lines(alloc, text)?;
    Ok(parse(alloc, lexed.list, 0)?)
}

pub fn handled(alloc: Global, p: &Protocol, here: &Here, m: &Message) -> Result<Ended, Fail> {
    if !is_served(p) || p.states.get(usize::from(here.state.state)).is_none() {
        return Err(Fail::new("a tree that is not served"));
    }
    Ok(run_in(alloc, p, here, m)?)
}

// What the last of these messages does.
fn last_shown(alloc: Global, p: &Protocol, letters: &[u8]) -> Result<String, Fail> {
    let number = BlockId::new(0).ok_or("block")?;
    let mut here = block(alloc, p, number)?;
    let mut last = String::new(alloc);
    for letter in letters {
        let end = handled(alloc, p, &here, &message(*letter, number))?;
        last = shown(alloc, p, &end)?;
        here = end.here;
    }
    Ok(last)
}

// Statements on a line each, which a table has behind one another.
fn put_lines(out: &mut String, statements: &str) -> Result<(), Fail> {
    for line in statements.split('/') {
        write!(out, "{line}\n")?;
    }
    Ok(())
}

// A protocol of this profile, where A does `go` with GO, and W does `up` with UP.
fn text_of(alloc: Global, profile: &str, go: &str, up: &str) -> Result<String, Fail> {
    let mut text = String::new(alloc);
    write!(&mut text, "Protocol T{profile}\n{HEAD}")?;
    put_lines(&mut text, go)?;
    write!(&mut text, "{MIDDLE}")?;
    put_lines(&mut text, up)?;
    write!(&mut text, "{TAIL}")?;
    Ok(text)
}

fn are_done(rt: &impl Abort, alloc: Global, profile: &str, rows: &str) -> Result<(), Fail> {
    for row in rows.split('\n') {
        let (what, due) = row.split_once(" -> ").unwrap_or(("", ""));
        let (go, rest) = what.split_once('~').unwrap_or(("", ""));
        let (up, letters) = rest.split_once('~').unwrap_or(("", ""));
        let text = text_of(alloc, profile, go, up)?;
        let p = protocol(alloc, text.as_bytes())?;
        let last = last_shown(alloc, &p, letters.as_bytes())?;
        assert_eq!(rt; last.as_str(), due, "{go}");
    }
    Ok(())
}

#[test]
fn statements(rt: HostRuntime) -> Result<(), Fail> {
    are_done(&rt, rt.alloc(), "", ROWS)
}

#[test]
fn statements_with_loops(rt: HostRuntime) -> Result<(), Fail> {
    are_done(&rt, rt.alloc(), " 2", LOOP_ROWS)
}

// 80,000 statements, one after the other.
fn many_statements(alloc: Global) -> Result<String, Fail> {
    let mut go = String::new(alloc);
    for _ in 0..80_000u32 {
        write!(&mut go, "n := (n + 1)\n")?;
    }
    Ok(go)
}

// 30,000 errors that are not met, and one that is.
fn many_errors(alloc: Global) -> Result<String, Fail> {
    let mut go = String::new(alloc);
    write!(&mut go, "If False\nBegin\n")?;
    for k in 0..30_000u32 {
        write!(&mut go, "Error(E{k})\n")?;
    }
    write!(&mut go, "End\nError(Last)")?;
    Ok(go)
}

fn go_shown(alloc: Global, go: &str) -> Result<String, Fail> {
    let p = protocol(alloc, text_of(alloc, "", go, "")?.as_bytes())?;
    last_shown(alloc, &p, b"g")
}

#[test]
fn long_handlers(rt: HostRuntime) -> Result<(), Fail> {
    let alloc = rt.alloc();
    let counted = go_shown(alloc, many_statements(alloc)?.as_str())?;
    assert_eq!(rt; counted.as_str(), "A0() Invalid 5 (80000 false @0 {})");
    let failed = go_shown(alloc, many_errors(alloc)?.as_str())?;
    assert_eq!(rt;
        failed.as_str(),
        "A0() Invalid 5 (0 false @0 {}) failed 30000"
    );
    Ok(())
}

const HEAD: &str = "\
Message GO(Int, Bool, Node, Set) 0 data\n\
Message UP() 1\n\
Info n Int\n\
Info b Bool\n\
Info d Node\n\
Info s Set\n\
HomeStart A ReadWrite\n\
CacheStart A Invalid\n\
State A{}\n\
Begin\n\
On GO(i, j, k, l)\n\
Begin\n";

const MIDDLE: &str = "\
End\n\
On UP()\n\
Begin\n\
WakeUp\n\
End\n\
Default\n\
Begin\n\
End\n\
End\n\
State W{x Int; C}\n\
Begin\n\
On GO(i, j, k, l)\n\
Begin\n\
Suspend(L, W{i; L})\n\
n := (n + 1)\n\
End\n\
On UP()\n\
Begin\n";

const TAIL: &str = "\
End\n\
Default\n\
Begin\n\
Enqueue\n\
End\n\
End\n";
