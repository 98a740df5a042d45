ghost use Rattle.std.specs.Prelude.{◌≡◌, ◌≤◌, ◌++◌, ◌*◌, All, [], length, map, take, drop, replicate, OnOk, IfOk};
ghost use Rattle.std.specs.Vec.Iter.{into_iter_items};
ghost use Rattle.tw_wire.specs.Made.{dealt};
ghost use Rattle.tw_wire.specs.Joined.{two_each, contents};

use crate::pass::RecvPass;
use std::alloc::Global;
use std::vec::IntoIter;
use tw_base::{Listed, Memory};

// A column for each of n receivers, with no end yet.
pub fn empty_columns(alloc: Global, n: u8) -> Result<Vec<Listed<RecvPass>>, Memory>
    ensures { IfOk result (λ columns. columns.items ≡ replicate n []) }
{
    let mut columns = Vec::new(alloc);
    for _ in 0..n {
        columns.push(Listed::new(alloc))?;
    }
    Ok(columns)
}

// Moves two ends to the end of a column.
fn give_two(row: &mut IntoIter<RecvPass>, column: &mut Listed<RecvPass>) -> Result<(), Memory>
    requires { 2 ≤ length (into_iter_items row.old) }
    ensures column { OnOk result (column.new ≡ column.old ++ take 2 (into_iter_items row.old)) }
    ensures row { OnOk result (into_iter_items row.new ≡ drop 2 (into_iter_items row.old)) }
{
    column.push(row.next().unwrap())?;
    column.push(row.next().unwrap())?;
    Ok(())
}

// Deals the receiving ends of a sender's wires: two to each receiver.
pub fn deal(columns: &mut Vec<Listed<RecvPass>>, row: Listed<RecvPass>) -> Result<(), Memory>
    requires { length row ≡ 2 * length columns.old.items }
    ensures { OnOk result (columns.new.items ≡ dealt (length columns.old.items) columns.old.items row) }
{
    let mut row = row.into_vec().into_iter();
    for column in columns.iter_mut() {
        give_two(&mut row, column)?;
    }
    Ok(())
}

// Moves the next two ends of a column.
fn take_two(column: &mut IntoIter<RecvPass>, row: &mut Vec<RecvPass>) -> Result<(), Memory>
    requires { 2 ≤ length (into_iter_items column.old) }
    ensures row { OnOk result (row.new.items ≡ row.old.items ++ take 2 (into_iter_items column.old)) }
    ensures column { OnOk result (into_iter_items column.new ≡ drop 2 (into_iter_items column.old)) }
{
    row.push(column.next().unwrap())?;
    row.push(column.next().unwrap())?;
    Ok(())
}

// The receiving ends of the next sender's wires, and the columns without them.
pub fn next_row(
    alloc: Global,
    columns: Vec<IntoIter<RecvPass>>,
) -> Result<(Vec<RecvPass>, Vec<IntoIter<RecvPass>>), Memory>
    requires { All (λ c. 2 ≤ length (into_iter_items c)) columns.items }
    ensures row { IfOk result (λ r. r.0.items ≡ two_each (contents columns.items)) }
    ensures rest { IfOk result (λ r. contents r.1.items ≡ map (λ c. drop 2 c) (contents columns.items)) }
{
    let mut row = Vec::new(alloc);
    let mut rest = Vec::new(alloc);
    for one in columns {
        let mut column = one;
        take_two(&mut column, &mut row)?;
        rest.push(column)?;
    }
    Ok((row, rest))
}
