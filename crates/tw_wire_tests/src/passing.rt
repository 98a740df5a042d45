ghost use Rattle.std.specs.Prelude.{◌≡◌, ◌<◌, ℕ, length};
ghost use Rattle.tw_wire.specs.Lending.{shown};
ghost use Rattle.tw_wire.specs.Wires.{AreEndsOf};
ghost use Rattle.tw_wire_tests.specs.Tied.{AreTied};

use std::sync::Wait;
use std::test::Fail;
use tw_base::{Chan, Message, NodeId};
use tw_wire::{Ends, Route, Wires};

// Pushes a message on the wire to a node.
fn push_to<R: Wait>(rt: &R, wires: &Wires, ends: &mut Ends, message: &Message) -> Result<(), Fail>
    requires to { message.now.to < length wires.now }
    requires ends { AreEndsOf (length wires.now) wires.now message.now.from (shown ends.old) }
    ensures { AreEndsOf (length wires.now) wires.now message.now.from (shown ends.new) }
{
    let pass = ends.send(message.to, message.chan);
    match wires.push(rt, pass, *message) {
        Ok(()) => Ok(()),
        Err(_) => Err(Fail::new("no memory")),
    }
}

/// Pushes a message on its wire.
pub fn push<R: Wait>(
    rt: &R,
    wires: &Wires,
    ends: &mut Vec<Ends>,
    message: &Message,
) -> Result<(), Fail>
    requires from { message.now.from < length wires.now }
    requires to { message.now.to < length wires.now }
    requires tied { AreTied wires.now ends.old.items }
    ensures { AreTied wires.now ends.new.items }
{
    push_to(
        rt,
        wires,
        &mut ends[usize::from(message.from.get())],
        message,
    )
}

/// A look at a wire: the message that was taken, and how many looks were in vain so far.
#[derive(Clone, Copy, Debug, PartialEq, Eq)]
pub struct Look {
    pub message: Option<Message>,
    pub in_vain: u64,
}

// Takes the first message of the wire from a node.
fn pop_from<R: Wait>(rt: &R, wires: &Wires, ends: &mut Ends, route: &Route) -> Look
    requires from { route.now.from < length wires.now }
    requires ends { AreEndsOf (length wires.now) wires.now route.now.to (shown ends.old) }
    ensures { AreEndsOf (length wires.now) wires.now route.now.to (shown ends.new) }
{
    let pass = ends.recv(route.from, route.chan);
    let message = wires.pop(rt, pass);
    let in_vain = pass.looks();
    Look { message, in_vain }
}

/// Takes the first message of a wire.
pub fn pop<R: Wait>(rt: &R, wires: &Wires, ends: &mut Vec<Ends>, route: &Route) -> Look
    requires from { route.now.from < length wires.now }
    requires to { route.now.to < length wires.now }
    requires tied { AreTied wires.now ends.old.items }
    ensures { AreTied wires.now ends.new.items }
{
    pop_from(rt, wires, &mut ends[usize::from(route.to.get())], route)
}
