ghost use Rattle.std.specs.Prelude.{◌≡◌, ◌↔◌, ℕ, IfOk, take, true};
ghost use Rattle.tw_base.specs.Bits.{has_bit};
ghost use Rattle.live_slots.specs.Tables.{IsReadFirst};

use crate::table::{live_table, slots_at};
use handler_code::OpCode;
use std::alloc::Global;
use tw_base::Memory;

/// The slots that the ops before `end` read first from a place on, a bit for each slot below 32.
pub fn live(alloc: Global, ops: &[OpCode], at: u32, end: u32) -> Result<u32, Memory>
    ensures { IfOk result (λ slots. (k : ℕ) → (has_bit slots k ≡ true) ↔ IsReadFirst (take end ops.now) at k) }
{
    let table = live_table(alloc, front(ops, end as usize))?;
    Ok(slots_at(table.items(), at as usize))
}

/// The ops before a place.
fn front(ops: &[OpCode], end: usize) -> &[OpCode]
    ensures { result.now ≡ take end ops.now }
{
    if end < ops.len() { &ops[..end] } else { ops }
}
