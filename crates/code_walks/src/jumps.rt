ghost use Rattle.std.specs.Prelude.{◌≡◌, ◌+◌, ◌<◌, ◌^◌, IfOk};
ghost use Rattle.std.specs.List.{list_all};
ghost use Rattle.code_walks.specs.Jumps.{is_back_to, is_done, is_each_to, is_in, is_in_range, is_loop, is_nested};
ghost use Rattle.code_walks.specs.Jumps.{is_not_entered, leads_back, leads_forward, leads_well, loops_of};

use crate::parts::{Part, op_at};
use handler_code::{Code, OpCode};
use std::alloc::Global;
use teapot_tree::Protocol;
use tw_base::{Listed, Memory};

/// Whether what the op names is in range, in a handler of this many slots.
pub fn is_in_range(p: &Protocol, code: &Code, slots: u8, op: OpCode) -> bool
    ensures { result ≡ is_in_range p.now code.now slots op }
{
    match op {
        OpCode::Get(k) => k < slots,
        OpCode::Put(k) => k < slots,
        OpCode::GetInfo(k) => (k as usize) < p.infos.len(),
        OpCode::PutInfo(k) => (k as usize) < p.infos.len(),
        OpCode::Send(m) => (m as usize) < p.messages.len(),
        OpCode::SendAll(m) => (m as usize) < p.messages.len(),
        OpCode::Goto(s) => (s as usize) < p.states.len(),
        OpCode::Suspend(s, r) => {
            (s as usize) < p.states.len() && (r as usize) < code.rests.len()
        }
        OpCode::Jump(to) => (to as usize) < code.ops.len(),
        OpCode::JumpIfNot(to) => (to as usize) < code.ops.len(),
        OpCode::JumpBack(to) => (to as usize) < code.ops.len(),
        OpCode::EachNext(k, h, to) => { k < slots && h < slots && (to as usize) < code.ops.len() }
        _ => true,
    }
}

/// A loop: the place of its EachNext, and the place to which that leads.
#[derive(Clone, Copy, Debug, PartialEq, Eq)]
pub struct Loop {
    pub at: u32,
    pub end: u32,
}

impl Loop {
    fn has(self, at: u32) -> bool
        ensures { result ≡ is_in self at }
    {
        self.at <= at && at < self.end
    }

    /// Whether a jump from one place to another does not enter it.
    fn is_not_entered(self, at: u32, to: u32) -> bool
        ensures { result ≡ is_not_entered at to self }
    {
        !self.has(to) || self.has(at)
    }

    /// Whether a loop from one place to another ends in it, if it begins in it.
    fn holds(self, at: u32, to: u32) -> bool
        ensures { result ≡ is_nested at to self }
    {
        !(self.at < at && at < self.end && self.end < to)
    }
}

/// The loops of a handler.
#[tactic(auto, using(crate::proofs::Walking::loops_more))]
pub fn loops_of(alloc: Global, code: &Code, part: Part) -> Result<Listed<Loop>, Memory>
    ensures { IfOk result (λ l. l ≡ loops_of code.now part) }
{
    let mut loops = Listed::new(alloc);
    for at in part.door.at..part.end {
        if let OpCode::EachNext(_, _, end) = op_at(code, at) {
            loops.push(Loop { at, end })?;
        }
    }
    Ok(loops)
}

/// Whether a jump enters none of the loops.
fn enters_none(loops: &[Loop], at: u32, to: u32) -> bool
    ensures { result ≡ list_all (is_not_entered at to) loops.now }
{
    loops.iter().all(|l| l.is_not_entered(at, to))
}

fn is_nested(loops: &[Loop], at: u32, to: u32) -> bool
    ensures { result ≡ list_all (is_nested at to) loops.now }
{
    loops.iter().all(|l| l.holds(at, to))
}

fn is_each_to(op: OpCode, place: u32) -> bool
    ensures { result ≡ is_each_to place op }
{
    matches!(op, OpCode::EachNext(_, _, to) if to == place)
}

fn is_back_to(op: OpCode, place: u32) -> bool
    ensures { result ≡ is_back_to place op }
{
    matches!(op, OpCode::JumpBack(to) if to == place)
}

fn leads_forward(loops: &[Loop], part: Part, at: u32, to: u32) -> bool
    ensures { result ≡ leads_forward loops.now part at to }
{
    at < to && to < part.end && enters_none(loops, at, to)
}

fn leads_back(code: &Code, part: Part, at: u32, to: u32) -> bool
    requires { at + 1 < 2 ^ 32 }
    ensures { result ≡ leads_back code.now part at to }
{
    part.door.at <= to && to < at && is_each_to(op_at(code, to), at + 1)
}

fn is_loop(loops: &[Loop], code: &Code, part: Part, at: u32, to: u32) -> bool
    requires { at + 1 < 2 ^ 32 }
    ensures { result ≡ is_loop loops.now code.now part at to }
{
    at + 1 < to && to <= part.end && is_back_to(op_at(code, to - 1), at) && is_nested(loops, at, to)
}

pub fn leads_well(loops: &[Loop], code: &Code, part: Part, at: u32, op: OpCode) -> bool
    requires { at + 1 < 2 ^ 32 }
    ensures { result ≡ leads_well loops.now code.now part at op }
{
    match op {
        OpCode::Jump(to) => leads_forward(loops, part, at, to),
        OpCode::JumpIfNot(to) => leads_forward(loops, part, at, to),
        OpCode::JumpBack(to) => leads_back(code, part, at, to),
        OpCode::EachNext(_, _, to) => is_loop(loops, code, part, at, to),
        _ => true,
    }
}

pub fn is_done(op: OpCode) -> bool
    ensures { result ≡ is_done op }
{
    matches!(op, OpCode::Done)
}
