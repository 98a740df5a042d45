use crate::changes::{Change, make};
use code_rules::{CodeFault, verify};
use handler_code::{Door, Kind2, OpCode, Rest};
use std::alloc::Global;
use std::process::Abort;
use std::test::Fail;
use suspend_split::{live, split};
use teapot_check::check;
use teapot_parse::{parse, read_trees_are_given, texts_have_text_lines};
use teapot_samples::{DEAF, DEEP, DOUBLE, PING_PONG, STACHE, WALK};
use teapot_tree::Checked;
use tw_base::{NodeSet, Value};
use tw_lex::lines;

// The protocol of a text that is accepted.
fn protocol(alloc: Global, text: &[u8]) -> Result<Checked, Fail> {
    if text.len() > 1 << 20 {
        return Err(Fail::new("a protocol that is too long"));
    }
    texts_have_text_lines();
    read_trees_are_given();
    let found = lines(alloc, text)?;
    let protocol = parse(alloc, found.list, found.all)?;
    Ok(check(alloc, protocol)?)
}

// The changed code of the protocol breaks this rule first, at this place.
fn breaks(
    rt: &impl Abort,
    alloc: Global,
    text: &str,
    changes: &[Change],
    at: u32,
    rule: u8,
) -> Result<(), Fail> {
    // For the proof alone: it looks for the type of values in an op.
    let _none: Option<Value> = None;
    let p = protocol(alloc, text.as_bytes())?;
    let mut code = split(alloc, &p)?;
    for c in changes {
        make(*c, &mut code);
    }
    assert_eq!(rt;
        verify(alloc, &code, &p),
        Err(CodeFault::Broken { at, rule })
    );
    Ok(())
}

// The code of the protocol that answers nobody is: Done; Home, Send, Done; Done.
#[test]
fn ops_are_refused(rt: HostRuntime) -> Result<(), Fail> {
    let alloc = rt.alloc();
    let number = OpCode::Const(Value::Int(0));
    breaks(&rt, alloc, DEAF, &[Change::Op(2, OpCode::Send(1))], 2, 1)?;
    breaks(&rt, alloc, DEAF, &[Change::Op(1, OpCode::Jump(0))], 1, 2)?;
    breaks(&rt, alloc, DEAF, &[Change::Op(1, OpCode::Not)], 1, 3)?;
    breaks(&rt, alloc, DEAF, &[Change::Op(1, number)], 2, 4)?;
    breaks(&rt, alloc, DEAF, &[Change::Op(3, OpCode::Home)], 3, 5)
}

// In WALK the loop is EachNext 1 2 10 at 5, with Suspend at 8 and JumpBack 5 at 9.
#[test]
fn loops_are_refused(rt: HostRuntime) -> Result<(), Fail> {
    let alloc = rt.alloc();
    let into = Change::Op(0, OpCode::Jump(7));
    breaks(&rt, alloc, WALK, &[into], 0, 2)?;
    let crossing = [
        Change::Op(6, OpCode::Wake),
        Change::Op(7, OpCode::EachNext(1, 0, 13)),
        Change::Op(11, OpCode::Wake),
        Change::Op(12, OpCode::JumpBack(7)),
    ];
    breaks(&rt, alloc, WALK, &crossing, 7, 2)?;
    let open = Change::Op(9, OpCode::Jump(10));
    breaks(&rt, alloc, WALK, &[open], 5, 2)?;
    let shared = [
        Change::Op(10, OpCode::Const(Value::Set(NodeSet::empty()))),
        Change::Op(11, OpCode::Put(2)),
        Change::Op(12, OpCode::Wake),
    ];
    breaks(&rt, alloc, WALK, &shared, 5, 9)
}

// Its one rest is at 9, of the first door, with the slots 0 and 2.
#[test]
fn rests_are_refused(rt: HostRuntime) -> Result<(), Fail> {
    let alloc = rt.alloc();
    let rest = |at: u32, door: u16, live: u32| Change::Rest(0, Rest { at, door, live });
    breaks(&rt, alloc, WALK, &[rest(10, 0, 0b101)], 10, 6)?;
    breaks(&rt, alloc, WALK, &[rest(9, 1, 0b1)], 9, 6)?;
    let twice = Change::Op(20, OpCode::Suspend(1, 0));
    breaks(&rt, alloc, WALK, &[twice], 9, 6)?;
    breaks(&rt, alloc, WALK, &[rest(9, 0, 0b100)], 9, 7)?;
    breaks(&rt, alloc, WALK, &[rest(9, 0, 0b001)], 9, 7)?;
    breaks(&rt, alloc, WALK, &[rest(33, 0, 0b101)], 33, 1)?;
    breaks(&rt, alloc, WALK, &[rest(9, 9, 0b101)], 33, 1)?;
    breaks(&rt, alloc, WALK, &[rest(9, 0, 0b1101)], 33, 1)
}

// A door of a state for a message, with its place and slots.
fn door(state: u8, on: Kind2, at: u32, slots: u8) -> Door {
    Door {
        state,
        on,
        at,
        slots,
    }
}

// The first two of its nine doors are of state 0, for message 0 at 0 with three slots, and for all else at 14 with one.
#[test]
fn doors_are_refused(rt: HostRuntime) -> Result<(), Fail> {
    let alloc = rt.alloc();
    let get = Kind2::Named(0);
    let second = |d: Door| [Change::Door(1, d)];
    breaks(&rt, alloc, WALK, &second(door(0, get, 14, 3)), 33, 8)?;
    breaks(&rt, alloc, WALK, &[Change::NoLastDoor], 33, 8)?;
    breaks(
        &rt,
        alloc,
        WALK,
        &second(door(0, Kind2::Default, 0, 1)),
        33,
        1,
    )?;
    breaks(
        &rt,
        alloc,
        WALK,
        &second(door(0, Kind2::Default, 14, 2)),
        33,
        1,
    )?;
    breaks(
        &rt,
        alloc,
        WALK,
        &second(door(0, Kind2::RdFault, 14, 1)),
        33,
        1,
    )?;
    breaks(
        &rt,
        alloc,
        WALK,
        &second(door(9, Kind2::Default, 14, 1)),
        33,
        1,
    )?;
    let late = Change::Door(0, door(0, get, 1, 3));
    breaks(&rt, alloc, WALK, &[late], 33, 1)
}

#[test]
fn compiled_code_keeps_the_rules(rt: HostRuntime) -> Result<(), Fail> {
    let alloc = rt.alloc();
    for text in [STACHE, DEAF, PING_PONG, DOUBLE, DEEP, WALK] {
        let p = protocol(alloc, text.as_bytes())?;
        let code = split(alloc, &p)?;
        assert_eq!(rt; verify(alloc, &code, &p), Ok(()));
    }
    Ok(())
}

// From a rest inside a loop the sender and the set of the loop are read.
#[test]
fn slots_are_live(rt: HostRuntime) -> Result<(), Fail> {
    let alloc = rt.alloc();
    let deaf = split(alloc, &protocol(alloc, DEAF.as_bytes())?)?;
    assert_eq!(rt; live(alloc, deaf.ops.items(), 1, 4)?, 0);
    let walk = split(alloc, &protocol(alloc, WALK.as_bytes())?)?;
    assert_eq!(rt; live(alloc, walk.ops.items(), 9, 14)?, 0b101);
    Ok(())
}
