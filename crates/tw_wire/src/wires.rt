ghost use Rattle.std.specs.Prelude.{◌≡◌, ◌≤◌, ◌++◌, ◌*◌, [], ◌∷◌, Some, IsSome, length, map, OnOk, IfOk, IfErr, MatchOption};
ghost use Rattle.tw_wire.specs.Places.{name_at};
ghost use Rattle.tw_wire.specs.Sides.{with_sent, with_taken, with_look};
ghost use Rattle.tw_wire.specs.Wires.{IsNamed, AreNew};
ghost use Rattle.tw_wire.specs.Lending.{shown};

use crate::columns::empty_columns;
use crate::ends::{Ends, place};
use crate::make::{Made, add_sender, paired};
use crate::pass::{RecvPass, SendPass};
use crate::route::Route;
use crate::wire::Wire;
use std::alloc::Global;
use std::marker::Model;
use std::sync::Wait;
use tw_base::{Listed, Memory, Message, NodeId};

/// The wires of n nodes: from each node to each, itself too, on both channels. A contract sees their names, in a row for
/// each sender, by receiver and channel.
#[derive(Drop)]
pub struct Wires {
    pub(crate) rows: Listed<Listed<Wire>>,
}

impl Model for Wires {
    ghost use Rattle.tw_wire.specs.Places.{Names};

    ghost Value = { Names };

    ghost view = { λ w. w.rows };
}

impl Wires {
    /// Makes all wires of n nodes, and the ends of each node by its number. Nothing is on a wire yet. `Memory` where there
    /// is not enough of it.
    pub fn new(alloc: Global, n: u8) -> Result<(Wires, Vec<Ends>), Memory>
        requires { (1 ≤ n) × (n ≤ 8) }
        ensures { IfOk result (λ r. AreNew n r.0 (map shown r.1.items)) }
    {
        let mut made = Made {
            rows: Listed::new(alloc),
            sends: Listed::new(alloc),
            recvs: empty_columns(alloc, n)?,
        };
        for from in 0..n {
            add_sender(alloc, &mut made, NodeId::new(from).unwrap(), n)?;
        }
        let Made { rows, sends, recvs } = made;
        let ends = paired(alloc, sends, recvs)?;
        Ok((Wires { rows }, ends))
    }

    // The wire of this route.
    fn wire(&self, route: &Route) -> &Wire
        requires { IsSome (name_at self.now route.now.from route.now.to route.now.chan) }
        ensures { name_at self.now route.now.from route.now.to route.now.chan ≡ Some result.now }
    {
        let row = &self.rows.items()[usize::from(route.from.get())];
        &row.items()[place(route.to, route.chan)]
    }

    /// Pushes a message at the end of the pass's wire. For want of memory it comes back and all stays as it was, and so it
    /// does after nearly 2^62 pushes.
    pub fn push<R: Wait>(
        &self,
        rt: &R,
        pass: &mut SendPass,
        message: Message,
    ) -> Result<(), Message>
        requires { IsNamed self.now pass.old.route pass.old.wire }
        ensures wire { (pass.new.route ≡ pass.old.route) × (pass.new.wire ≡ pass.old.wire) }
        ensures ok { OnOk result (pass.new ≡ with_sent pass.old message) }
        ensures err { IfErr result (λ m. (m ≡ message) × (pass.new ≡ pass.old)) }
    {
        self.wire(&pass.route).push(rt, pass, message)
    }

    /// Takes the first message of the pass's wire. Where it finds none, the pass counts a look in vain, up to 2^64 - 1: that
    /// the wire was empty then, no clause says. It takes no memory.
    pub fn pop<R: Wait>(&self, rt: &R, pass: &mut RecvPass) -> Option<Message>
        requires { IsNamed self.now pass.old.route pass.old.wire }
        ensures wire { (pass.new.route ≡ pass.old.route) × (pass.new.wire ≡ pass.old.wire) }
        ensures taken { MatchOption result (pass.new ≡ with_look pass.old) (λ m. pass.new ≡ with_taken pass.old m) }
    {
        self.wire(&pass.route).pop(rt, pass)
    }
}
