ghost use Rattle.std.specs.Prelude.{ℕ, ◌≡◌, ◌<◌, ◌==◌, ◌&&◌, ◌||◌, nat_lt, not, false, length, slice_index, IfOk, replicate};
ghost use Rattle.tw_base.specs.Bits.{has_bit};
ghost use Rattle.live_slots.specs.Tables.{IsClosed, IsClosedAt, IsExact, IsJustified, IsStep};

use handler_code::OpCode;
use std::alloc::Global;
use tw_base::{Listed, Memory};

/// The slots below 32 that are read first from each place, a bit for each slot: sweeps over the ops from the last to the
/// first, until nothing changes.
pub fn live_table(alloc: Global, ops: &[OpCode]) -> Result<Listed<u32>, Memory>
    ensures { IfOk result (λ table. IsExact ops.now table) }
{
    let mut table = no_slots(alloc, ops.len())?;
    for _ in 0..u64::MAX {
        if !sweep(ops, &mut table) {
            return Ok(table);
        }
    }
    Err(Memory)
}

fn no_slots(alloc: Global, count: usize) -> Result<Listed<u32>, Memory>
    ensures { IfOk result (λ table. table ≡ replicate count 0) }
{
    Ok(Listed::of(vec![in alloc; 0; count]?))
}

/// Steps at each place, from the last to the first. Answers whether something changed.
fn sweep(ops: &[OpCode], table: &mut Listed<u32>) -> bool
    requires { length table.old ≡ length ops.now }
    ensures len { length table.new ≡ length ops.now }
    ensures justified { IsJustified ops.now table.old → IsJustified ops.now table.new }
    ensures closed { result ≡ false → IsClosed ops.now table.new }
{
    let mut changed = false;
    let mut at = ops.len();
    'places: while at > 0 {
        at -= 1;
        let here = improve(ops, table, at);
        changed = changed || here;
    }
    changed
}

/// Writes a step into the table. Answers whether that changed it.
fn improve(ops: &[OpCode], table: &mut Listed<u32>, at: usize) -> bool
    requires within { at < length ops.now }
    requires len { length table.old ≡ length ops.now }
    ensures len { length table.new ≡ length ops.now }
    ensures justified { IsJustified ops.now table.old → IsJustified ops.now table.new }
    ensures same { result ≡ false → table.new ≡ table.old }
    ensures closed { result ≡ false → IsClosedAt ops.now table.new at }
{
    let op = &ops[at];
    let slots = step(op, at, table.items());
    if slots == slots_at(table.items(), at) {
        return false;
    }
    table.set(at, slots);
    true
}

/// The slots that an op reads first, where the table says which are read behind it.
fn step(op: &OpCode, at: usize, table: &[u32]) -> u32
    requires { at < length table.now }
    ensures { IsStep op.now at table.now result }
{
    let next = slots_at(table, at + 1);
    match op {
        OpCode::Get(slot) => with_slot(next, *slot),
        OpCode::Put(slot) => without_slot(next, *slot),
        OpCode::Jump(to) => slots_at(table, *to as usize),
        OpCode::JumpBack(to) => slots_at(table, *to as usize),
        OpCode::JumpIfNot(to) => either(slots_at(table, *to as usize), next),
        OpCode::EachNext(variable, set, to) => {
            let turn = without_slot(next, *variable);
            with_slot(either(slots_at(table, *to as usize), turn), *set)
        }
        OpCode::Resume => 0,
        OpCode::Done => 0,
        _ => next,
    }
}

/// The slots that the table has for a place; past the last place there are none.
pub fn slots_at(table: &[u32], at: usize) -> u32
    ensures { result ≡ slice_index table.now at }
{
    table.get(at).copied().unwrap_or(0)
}

/// These slots and one more, if it is below 32.
fn with_slot(slots: u32, slot: u8) -> u32
    ensures { (k : ℕ) → has_bit result k ≡ ((nat_lt slot 32 && (slot == k)) || has_bit slots k) }
{
    if slot < 32 { slots | 1 << slot } else { slots }
}

fn without_slot(slots: u32, slot: u8) -> u32
    ensures { (k : ℕ) → has_bit result k ≡ (not (slot == k) && has_bit slots k) }
{
    if slot < 32 {
        slots & !(1 << slot)
    } else {
        slots
    }
}

fn either(a: u32, b: u32) -> u32
    ensures { (k : ℕ) → has_bit result k ≡ (has_bit a k || has_bit b k) }
{
    a | b
}
