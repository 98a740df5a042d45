ghost use Rattle.std.specs.Prelude.{◌≡◌, length, map, OnOk, IfOk};
ghost use Rattle.std.specs.Vec.Iter.{into_iter_items};
ghost use Rattle.tw_wire.specs.Joined.{AreJoinedEnds, lists, contents, AreEnds, AddsLeft};
ghost use Rattle.tw_wire.specs.Lending.{shown};
ghost use Rattle.tw_wire.specs.Wires.{AreNames, AreAllEnds, AreClosed};

use crate::columns::next_row;
use crate::ends::Ends;
use crate::pass::{RecvPass, SendPass};
use crate::wire::Wire;
use crate::wires::Wires;
use std::alloc::Global;
use std::sync::Wait;
use std::vec::IntoIter;
use tw_base::{Listed, Memory, Message};

// Joins the ends of these wires, each in its place, and takes what is left on each.
fn close_row<R: Wait>(
    rt: &R,
    alloc: Global,
    wires: &[Wire],
    sends: Vec<SendPass>,
    recvs: Vec<RecvPass>,
) -> Result<Vec<Vec<Message>>, Memory>
    requires sends { map (λ s. s.wire) sends.items ≡ wires.now }
    requires recvs { map (λ r. r.wire) recvs.items ≡ wires.now }
    ensures count { IfOk result (λ left. length left.items ≡ length wires.now) }
    ensures joined { IfOk result (λ left. AreJoinedEnds sends.items recvs.items (lists left.items)) }
{
    let mut left = Vec::new(alloc);
    let mut sends = sends.into_iter();
    let mut recvs = recvs.into_iter();
    for wire in wires {
        let send = sends.next().unwrap();
        let recv = recvs.next().unwrap();
        left.push(wire.close(rt, alloc, send, recv)?)?;
    }
    Ok(left)
}

// Joins the ends of all wires, a sender after another, and adds what is left.
fn close_rows<R: Wait>(
    rt: &R,
    alloc: Global,
    rows: &[Listed<Wire>],
    sends: &mut IntoIter<Listed<SendPass>>,
    columns: Vec<IntoIter<RecvPass>>,
    left: &mut Vec<Vec<Message>>,
) -> Result<(), Memory>
    requires { AreEnds rows.now (into_iter_items sends.old) (contents columns.items) }
    ensures { OnOk result (AddsLeft rows.now (into_iter_items sends.old) (contents columns.items) left.old.items left.new.items) }
{
    let Some((row, others)) = rows.split_first() else {
        return Ok(());
    };
    let out = sends.next().unwrap();
    let (back, rest) = next_row(alloc, columns)?;
    let mut more = close_row(rt, alloc, row.items(), out.into_vec(), back)?;
    left.append(&mut more)?;
    close_rows(rt, alloc, others, sends, rest, left)
}

// Rows of the sending ends, and columns of the receiving ones.
fn apart(
    alloc: Global,
    ends: Vec<Ends>,
) -> Result<(Vec<Listed<SendPass>>, Vec<IntoIter<RecvPass>>), Memory>
    ensures sends { IfOk result (λ r. r.0.items ≡ map (λ e. e.sends) (map shown ends.items)) }
    ensures recvs { IfOk result (λ r. contents r.1.items ≡ map (λ e. e.recvs) (map shown ends.items)) }
{
    let mut rows = Vec::new(alloc);
    let mut columns = Vec::new(alloc);
    for one in ends {
        let Ends { sends, recvs } = one;
        rows.push(Listed::of(sends))?;
        columns.push(recvs.into_iter())?;
    }
    Ok((rows, columns))
}

impl Wires {
    /// Joins the ends of all nodes, by number, and gives what is left on each wire, by sender, receiver and channel. On each
    /// wire what was taken and then what is left is what was pushed. `Memory` where there is not enough of it.
    pub fn close<R: Wait>(
        self,
        rt: &R,
        alloc: Global,
        ends: Vec<Ends>,
    ) -> Result<Vec<Vec<Message>>, Memory>
        requires names { AreNames (length self) self }
        requires ends { AreAllEnds (length self) self (map shown ends.items) }
        ensures { IfOk result (λ left. AreClosed (length self) (map shown ends.items) (lists left.items)) }
    {
        let (sends, columns) = apart(alloc, ends)?;
        let mut left = Vec::new(alloc);
        let mut sends = sends.into_iter();
        close_rows(rt, alloc, self.rows.items(), &mut sends, columns, &mut left)?;
        Ok(left)
    }
}
