ghost use Rattle.std.specs.Prelude.{◌≡◌, count_by};
ghost use Rattle.std.specs.List.{list_any};
ghost use Rattle.code_rules.specs.Sets.{has_own_set, is_each_into, is_each_over, is_put, is_put_before, is_set_of_one};

use code_walks::{Part, op_at, ops_of};
use handler_code::{Code, OpCode};

fn is_put(op: &OpCode, slot: u8) -> bool
    ensures { result ≡ is_put slot op.now }
{
    matches!(op, OpCode::Put(k) if *k == slot)
}

fn is_each_over(op: &OpCode, slot: u8) -> bool
    ensures { result ≡ is_each_over slot op.now }
{
    matches!(op, OpCode::EachNext(_, h, _) if *h == slot)
}

fn is_each_into(op: &OpCode, slot: u8) -> bool
    ensures { result ≡ is_each_into slot op.now }
{
    matches!(op, OpCode::EachNext(k, _, _) if *k == slot)
}

fn puts(ops: &[OpCode], slot: u8) -> usize
    ensures { result ≡ count_by (is_put slot) ops.now }
{
    ops.iter().filter(|op| is_put(op, slot)).count()
}

fn loops_over(ops: &[OpCode], slot: u8) -> usize
    ensures { result ≡ count_by (is_each_over slot) ops.now }
{
    ops.iter().filter(|op| is_each_over(op, slot)).count()
}

fn has_loop_into(ops: &[OpCode], slot: u8) -> bool
    ensures { result ≡ list_any (is_each_into slot) ops.now }
{
    ops.iter().any(|op| is_each_into(op, slot))
}

/// Whether among these ops one loop is over the slot, one Put writes it, and no loop puts nodes into it.
fn is_set_of_one(ops: &[OpCode], slot: u8) -> bool
    ensures { result ≡ is_set_of_one ops.now slot }
{
    loops_over(ops, slot) == 1 && puts(ops, slot) == 1 && !has_loop_into(ops, slot)
}

fn is_put_before(code: &Code, part: Part, at: u32, slot: u8) -> bool
    ensures { result ≡ is_put_before code.now part at slot }
{
    part.door.at < at && is_put(&op_at(code, at - 1), slot)
}

/// Whether the set of the loop, if one begins at the place, stands in a slot of its own.
pub fn has_own_set(code: &Code, part: Part, at: u32, op: OpCode) -> bool
    ensures { result ≡ has_own_set code.now part at op }
{
    match op {
        OpCode::EachNext(_, h, _) => {
            is_put_before(code, part, at, h) && is_set_of_one(ops_of(code, part), h)
        }
        _ => true,
    }
}
