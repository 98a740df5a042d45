ghost use Rattle.std.specs.Prelude.{◌<◌, length};
ghost use Rattle.tw_wire_tests.specs.Tied.{AreTied};

use crate::passing::push;
use crate::rounds::{look_in_vain, new_wires, take_row};
use crate::routes::message;
use std::process::Abort;
use std::sync::Wait;
use std::test::Fail;
use tw_base::{Chan, NodeId};
use tw_wire::{Ends, Route, Wires};

/// Pushes the message of this number on a wire.
fn push_numbered<R: Wait>(
    rt: &R,
    wires: &Wires,
    ends: &mut Vec<Ends>,
    route: &Route,
    number: u64,
) -> Result<(), Fail>
    requires from { route.now.from < length wires.now }
    requires to { route.now.to < length wires.now }
    requires tied { AreTied wires.now ends.old.items }
    ensures { AreTied wires.now ends.new.items }
{
    let Some(message) = message(route, number) else {
        return Err(Fail::new("no message"));
    };
    push(rt, wires, ends, &message)
}

/// Pushes two messages on a wire; three looks give the first, the second and nothing.
fn push_two_and_look_thrice<R: Wait + Abort>(
    rt: &R,
    wires: &Wires,
    ends: &mut Vec<Ends>,
    route: &Route,
) -> Result<(), Fail>
    requires from { route.now.from < length wires.now }
    requires to { route.now.to < length wires.now }
    requires tied { AreTied wires.now ends.old.items }
    ensures { AreTied wires.now ends.new.items }
{
    push_numbered(rt, wires, ends, route, 0)?;
    push_numbered(rt, wires, ends, route, 1)?;
    take_row(rt, wires, ends, route, 2);
    look_in_vain(rt, wires, ends, route, 1);
    Ok(())
}

#[test]
fn a_wire_between_two_nodes_is_emptied(rt: HostRuntime) -> Result<(), Fail> {
    let alloc = rt.alloc();
    let (wires, mut ends) = new_wires(alloc, 2)?;
    let route = Route {
        from: NodeId::new(0).unwrap(),
        to: NodeId::new(1).unwrap(),
        chan: Chan::One,
    };
    push_two_and_look_thrice(&rt, &wires, &mut ends, &route)?;
    let left = wires.close(&rt, alloc, ends)?;
    assert_eq!(rt; left.len(), 8);
    for messages in left.iter() {
        assert!(rt; messages.is_empty());
    }
    Ok(())
}
