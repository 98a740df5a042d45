ghost use Rattle.std.specs.Prelude.{◌≡◌, ◌≤◌, OnOk, IfOk};
ghost use Rattle.std.specs.Global.{Global as TheGlobal};
ghost use Rattle.crossbeam_queue.specs.SegTies.{SegId};
ghost use Rattle.tw_wire.specs.Made.{with_wire, with_pair, IsRow};

use crate::pass::{RecvPass, SendPass};
use crate::route::Route;
use crate::wire::Wire;
use std::alloc::Global;
use tw_base::{Chan, Listed, Memory, NodeId};

// The wires of one sender, by receiver and channel, and their ends.
#[derive(Drop)]
pub struct Row {
    pub wires: Listed<Wire>,
    pub sends: Listed<SendPass>,
    pub recvs: Listed<RecvPass>,
}

// Adds a wire and its ends.
fn add_wire(alloc: Global, row: &mut Row, route: &Route) -> Result<(), Memory>
    ensures { OnOk result ((w : SegId TheGlobal) × (row.new ≡ with_wire route.now w row.old)) }
{
    let (wire, send, recv) = Wire::new(alloc, route)?;
    row.wires.push(wire)?;
    row.sends.push(send)?;
    row.recvs.push(recv)?;
    Ok(())
}

// Adds both wires to a receiver.
fn add_pair(alloc: Global, row: &mut Row, from: NodeId, to: NodeId) -> Result<(), Memory>
    ensures { OnOk result ((v w : SegId TheGlobal) × (row.new ≡ with_pair from to v w row.old)) }
{
    let zero = Route {
        from,
        to,
        chan: Chan::Zero,
    };
    let one = Route {
        from,
        to,
        chan: Chan::One,
    };
    add_wire(alloc, row, &zero)?;
    add_wire(alloc, row, &one)
}

// Makes the wires from a node to each of n nodes.
pub fn make_row(alloc: Global, from: NodeId, n: u8) -> Result<Row, Memory>
    requires { n ≤ 8 }
    ensures { IfOk result (λ row. IsRow from n row) }
{
    let mut row = Row {
        wires: Listed::new(alloc),
        sends: Listed::new(alloc),
        recvs: Listed::new(alloc),
    };
    for to in 0..n {
        add_pair(alloc, &mut row, from, NodeId::new(to).unwrap())?;
    }
    Ok(row)
}
