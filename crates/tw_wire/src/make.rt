ghost use Rattle.std.specs.Prelude.{◌≡◌, ◌≤◌, ◌<◌, ◌+◌, length, map, OnOk, IfOk};
ghost use Rattle.tw_wire.specs.Made.{AreRows};

use crate::columns::deal;
use crate::ends::Ends;
use crate::pass::{RecvPass, SendPass};
use crate::row::{Row, make_row};
use crate::wire::Wire;
use std::alloc::Global;
use tw_base::{Listed, Memory, NodeId};

// The wires of some senders: in rows, with their sending ends, and their receiving ends in columns.
#[derive(Drop)]
pub struct Made {
    pub rows: Listed<Listed<Wire>>,
    pub sends: Listed<Listed<SendPass>>,
    pub recvs: Vec<Listed<RecvPass>>,
}

// Adds the wires of the next sender.
pub fn add_sender(alloc: Global, made: &mut Made, from: NodeId, n: u8) -> Result<(), Memory>
    requires count { n ≤ 8 }
    requires rows { AreRows n from made.old.rows made.old.sends made.old.recvs.items }
    ensures { OnOk result (AreRows n (from + 1) made.new.rows made.new.sends made.new.recvs.items) }
{
    let Row {
        wires,
        sends,
        recvs,
    } = make_row(alloc, from, n)?;
    made.rows.push(wires)?;
    made.sends.push(sends)?;
    deal(&mut made.recvs, recvs)
}

// The ends of each node: a row of sending ones and a column of receiving ones.
pub fn paired(
    alloc: Global,
    sends: Listed<Listed<SendPass>>,
    recvs: Vec<Listed<RecvPass>>,
) -> Result<Vec<Ends>, Memory>
    requires { length sends ≡ length recvs.items }
    ensures sends { IfOk result (λ ends. map (λ e. e.sends.items) ends.items ≡ sends) }
    ensures recvs { IfOk result (λ ends. map (λ e. e.recvs.items) ends.items ≡ recvs.items) }
{
    let mut ends = Vec::new(alloc);
    let nodes = recvs.len();
    let mut sends = sends.into_vec().into_iter();
    let mut recvs = recvs.into_iter();
    for _ in 0..nodes {
        let sends = sends.next().unwrap().into_vec();
        let recvs = recvs.next().unwrap().into_vec();
        ends.push(Ends { sends, recvs })?;
    }
    Ok(ends)
}
