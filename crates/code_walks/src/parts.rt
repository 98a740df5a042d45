ghost use Rattle.std.specs.Prelude.{◌≡◌, ◌+◌, ◌<◌, ◌^◌, drop, length, slice_get, take};
ghost use Rattle.code_walks.specs.Parts.{end_of, op_at, ops_of};

use handler_code::{Code, Door, OpCode};

/// A handler in the code: its door, and the place after its last op.
#[derive(Clone, Copy, Debug, PartialEq, Eq)]
pub struct Part {
    pub door: Door,
    pub end: u32,
}

/// The op at a place; past the last one, Done.
pub fn op_at(code: &Code, at: u32) -> OpCode
    ensures { result ≡ op_at code.now at }
{
    match code.ops.get(at as usize) {
        Some(op) => *op,
        None => OpCode::Done,
    }
}

/// The place after the last op of the handler behind the door of this number.
pub fn end_of(code: &Code, number: usize) -> u32
    requires few { length code.now.ops < 2 ^ 32 }
    requires next { number + 1 < 2 ^ 64 }
    ensures { result ≡ end_of code.now number }
{
    match code.doors.get(number + 1) {
        Some(door) => door.at,
        None => code.ops.len() as u32,
    }
}

/// The handler behind the door of this number.
pub fn part_at(code: &Code, number: usize) -> Part
    requires few { length code.now.ops < 2 ^ 32 }
    requires within { number < length code.now.doors }
    ensures door { slice_get code.now.doors number ≡ Some result.door }
    ensures end { result.end ≡ end_of code.now number }
{
    let doors = code.doors.items();
    let door = doors[number];
    let end = end_of(code, number);
    Part { door, end }
}

/// The ops of a handler.
pub fn ops_of(code: &Code, part: Part) -> &[OpCode]
    ensures { result.now ≡ ops_of code.now part }
{
    let ops = code.ops.items();
    let upto = front(ops, part.end as usize);
    back(upto, part.door.at as usize)
}

/// The ops before a place.
fn front(ops: &[OpCode], end: usize) -> &[OpCode]
    ensures { result.now ≡ take end ops.now }
{
    if end < ops.len() { &ops[..end] } else { ops }
}

/// The ops from a place on.
fn back(ops: &[OpCode], from: usize) -> &[OpCode]
    ensures { result.now ≡ drop from ops.now }
{
    if from < ops.len() { &ops[from..] } else { &[] }
}
