ghost use Rattle.std.specs.Prelude.{◌≡◌, ◌+◌, ◌<◌, ◌^◌, true, slice_get};
ghost use Rattle.handler_code.specs.Machine.{message_arity, state_arity};
ghost use Rattle.code_walks.specs.Least.{IsLeast};
ghost use Rattle.code_walks.specs.Parts.{Within};
ghost use Rattle.handler_code.specs.Stacks.{taken_by};
ghost use Rattle.code_walks.specs.Stacks.{BreaksStack, IsLedTo, LeadsInside, depth_after, is_inside, is_served, is_unserved};
ghost use Rattle.code_walks.specs.Stacks.{is_value, target};

use crate::parts::{Part, op_at};
use handler_code::{Code, OpCode};
use teapot_tree::Protocol;
use tw_base::lesser;

/// Whether an op leaves a value on the stack.
fn is_value(op: &OpCode) -> bool
    ensures { result ≡ is_value op.now }
{
    match op {
        OpCode::Const(_) => true,
        OpCode::Get(_) => true,
        OpCode::GetInfo(_) => true,
        OpCode::Me => true,
        OpCode::Home => true,
        OpCode::One => true,
        OpCode::Not => true,
        OpCode::Count => true,
        OpCode::Two(_) => true,
        _ => false,
    }
}

/// How many arguments and a receiver a message takes.
fn with_receiver(p: &Protocol, message: u8) -> usize
    ensures { result ≡ message_arity (slice_get p.now.messages message) + 1 }
{
    match p.messages.get(message as usize) {
        Some(m) => m.args.items().len() + 1,
        None => 1,
    }
}

fn state_arity(p: &Protocol, state: u8) -> usize
    ensures { result ≡ state_arity (slice_get p.now.states state) }
{
    match p.states.get(state as usize) {
        Some(s) => s.params.len(),
        None => 0,
    }
}

/// How many values an op takes off the stack.
fn taken_by(p: &Protocol, op: &OpCode) -> usize
    ensures { result ≡ taken_by p.now op.now }
{
    match *op {
        OpCode::One => 1,
        OpCode::Not => 1,
        OpCode::Count => 1,
        OpCode::Two(_) => 2,
        OpCode::Put(_) => 1,
        OpCode::PutInfo(_) => 1,
        OpCode::JumpIfNot(_) => 1,
        OpCode::Send(m) => with_receiver(p, m),
        OpCode::SendAll(m) => with_receiver(p, m),
        OpCode::Goto(s) => state_arity(p, s),
        OpCode::Suspend(s, _) => state_arity(p, s),
        _ => 0,
    }
}

fn depth_after(p: &Protocol, op: &OpCode, depth: usize) -> usize
    requires { depth < 2 ^ 32 }
    ensures { result ≡ depth_after p.now op.now depth }
{
    if is_value(op) {
        depth.saturating_sub(taken_by(p, op)) + 1
    } else {
        0
    }
}

/// Whether the stack serves an op.
fn is_served(p: &Protocol, op: &OpCode, depth: usize) -> bool
    requires { depth < 2 ^ 32 }
    ensures { result ≡ is_served p.now op.now depth }
{
    if is_value(op) {
        taken_by(p, op) <= depth && depth_after(p, op, depth) <= 24
    } else {
        depth == taken_by(p, op)
    }
}

/// The least place of an op that the stack does not serve.
fn first_unserved(p: &Protocol, code: &Code, part: Part) -> Option<u32>
    ensures { IsLeast (Within part (λ at. is_unserved p.now code.now part at ≡ true)) result }
{
    let mut depth = 0;
    for at in part.door.at..part.end {
        let op = &op_at(code, at);
        if !is_served(p, op, depth) {
            return Some(at);
        }
        depth = depth_after(p, op, depth);
    }
    None
}

/// The place to which an op leads, other than the next one.
fn target(op: &OpCode) -> Option<u32>
    ensures { result ≡ target op.now }
{
    match *op {
        OpCode::Jump(to) => Some(to),
        OpCode::JumpIfNot(to) => Some(to),
        OpCode::JumpBack(to) => Some(to),
        OpCode::EachNext(_, _, to) => Some(to),
        _ => None,
    }
}

/// Whether the place is in the handler, right behind an op that leaves a value.
fn is_inside(code: &Code, part: Part, to: u32) -> bool
    ensures { result ≡ is_inside code.now part to }
{
    part.door.at < to && to < part.end && is_value(&op_at(code, to - 1))
}

/// The place inside the handler to which an op leads, if there are values on the stack there.
fn led_place(code: &Code, part: Part, op: &OpCode) -> Option<u32>
    ensures { IsLeast (LeadsInside code.now part op.now) result }
{
    match target(op) {
        None => None,
        Some(to) => {
            if is_inside(code, part, to) {
                Some(to)
            } else {
                None
            }
        }
    }
}

/// The least place to which an op of the handler leads, though there are values on the stack.
fn first_led_to(p: &Protocol, code: &Code, part: Part) -> Option<u32>
    ensures { IsLeast (Within part (IsLedTo p.now code.now part)) result }
{
    let _protocol = p;
    let mut least = None;
    for at in part.door.at..part.end {
        let op = &op_at(code, at);
        least = lesser(least, led_place(code, part, op));
    }
    least
}

/// The least place of the handler at which the rule of the stack is broken.
pub fn first_on_stack(p: &Protocol, code: &Code, part: Part) -> Option<u32>
    ensures { IsLeast (Within part (BreaksStack p.now code.now part)) result }
{
    lesser(first_unserved(p, code, part), first_led_to(p, code, part))
}
