use crate::{Names, Text, add_failure};
use std::alloc::Global;
use std::test::Fail;
use teapot_tree::{MessageDecl, Protocol};
use tw_base::{Chan, End, Kind, Listed, Memory, Name};

// A protocol with one message and nothing else.
fn one_message(alloc: Global) -> Result<Protocol, Memory> {
    let mut messages = Listed::new(alloc);
    messages.push(MessageDecl {
        name: Name::new(alloc, b"GO")?,
        args: Listed::new(alloc),
        chan: Chan::Zero,
        carries: false,
        line: 2,
    })?;
    Ok(Protocol {
        name: Name::new(alloc, b"P")?,
        profile: 1,
        line: 1,
        messages,
        infos: Listed::new(alloc),
        starts: Listed::new(alloc),
        states: Listed::new(alloc),
    })
}

fn written(alloc: Global, protocol: &Protocol) -> Result<Vec<u8>, Memory> {
    let names = Names::new(alloc, protocol)?;
    let mut out = Text::new(alloc);
    let number = 7u8;
    write!(out, "number {number} ")?;
    out.add(names.kind(Kind::Named(0)))?;
    out.add(names.kind(Kind::Named(1)))?;
    out.add(names.state(0))?;
    add_failure(&mut out, &names, End::Fine)?;
    add_failure(&mut out, &names, End::TooDeep)?;
    Ok(out.into_vec())
}

#[test]
fn text_grows(rt: HostRuntime) -> Result<(), Fail> {
    let alloc = rt.alloc();
    let protocol = one_message(alloc)?;
    let text = written(alloc, &protocol)?;
    assert_eq!(rt; text.as_slice(), b"number 7 GO failed TooDeep".as_slice());
    Ok(())
}
