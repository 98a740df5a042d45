ghost use Rattle.std.specs.Prelude.{◌≡◌, ◌+◌, ◌*◌, ◌<◌, ◌≤◌, ◌^◌, false, length, slice_get, IfOk, IfSome, MatchOption};
ghost use Rattle.mini_asm.specs.Machine.{asks, next_of, finish_of};
ghost use Rattle.mini_asm.specs.Programs.{HasRegisters};
ghost use Rattle.mini_asm.specs.Run.{first_cpu};
ghost use Rattle.blizzard_guard.specs.Running.{OnProgram, MayGoAt, IsAnswered, check_here, instr_here, instr_place};

use crate::{GuardOp, Guarded, Looked, check_access, guard, plain_place};
use block_tags::Blocks;
use mini_asm::{Cpu, Instr, Next, Program};
use std::alloc::Global;
use std::marker::Model;
use tw_base::{Access, Listed, Memory, Trap};

/// What a look at the next instruction finds.
#[derive(Clone, Copy, Debug, PartialEq, Eq)]
pub enum Look {
    /// The tag of the address's block refuses a store (`store` is true; a fetch and add is one) or a load.
    Refused { store: bool, address: u32 },
    /// Nothing refuses it: this is what it asks for.
    Goes(Next),
}

/// The check at a place of the ops, if one stands there: whether it stores, its register and its number.
fn check_at(ops: &Listed<GuardOp>, at: u32) -> Option<(bool, u8, u64)>
    ensures { result ≡ check_here (slice_get ops.now at) }
{
    match ops.get(at as usize).copied() {
        Some(
            GuardOp::Check {
                store,
                base,
                offset,
            },
        ) => Some((store, base, offset)),
        Some(GuardOp::Do(_)) | None => None,
    }
}

/// The instruction at a place of the ops, if one stands there.
fn instr_at(ops: &Listed<GuardOp>, at: u32) -> Option<Instr>
    ensures { result ≡ instr_here (slice_get ops.now at) }
{
    match ops.get(at as usize).copied() {
        Some(GuardOp::Do(instr)) => Some(instr),
        Some(GuardOp::Check { .. }) | None => None,
    }
}

/// What the instruction at a place of the ops asks for.
fn asks_at(ops: &Listed<GuardOp>, at: u32, regs: &[u64; 16], size: u64) -> Next
    requires registers { IfSome (instr_here (slice_get ops.now at)) HasRegisters }
    requires size { size ≤ 2 ^ 32 }
    ensures { result ≡ asks (instr_here (slice_get ops.now at)) regs.now size }
{
    match instr_at(ops, at) {
        Some(instr) => instr.asks(regs, size),
        None => Next::Trap(Trap::FellOff),
    }
}

/// The address of an access, where the tag of its block refuses it. An address past the memory has no tag.
fn refused(blocks: &Blocks, store: bool, address: u64) -> Option<u32>
    ensures { MatchOption result (MayGoAt blocks.now store address)
        (λ a. (a ≡ address) × IsAnswered blocks.now store address false) }
{
    let a = Access { store, address };
    if address < u64::from(blocks.shape().size()) && check_access(blocks, a) == Looked::Miss {
        Some(address as u32)
    } else {
        None
    }
}

/// The place of an instruction: behind its check, if it has one.
fn instr_place(ops: &Listed<GuardOp>, at: u32) -> u32
    requires { at + 1 < 2 ^ 32 }
    ensures { result ≡ instr_place (slice_get ops.now at) at }
{
    match check_at(ops, at) {
        Some(_) => at + 1,
        None => at,
    }
}

/// A processor that executes a guarded program, seen as a processor of the plain program.
#[derive(Drop)]
pub struct Processor {
    guarded: Guarded,
    // its place is that of an op
    cpu: Cpu,
}

impl Model for Processor {
    ghost use Rattle.blizzard_guard.specs.Running.{OnProgram, on_plain, IsOnGuarded};

    ghost Value = { OnProgram };

    ghost view = { λ x. on_plain x.guarded x.cpu };

    ghost invariant = { λ x. IsOnGuarded x.guarded x.cpu };
}

impl Processor {
    ghost use Rattle.blizzard_guard.specs.Running.{LookedAt};

    /// A processor at the start of a program, with all registers 0. Answers `Memory` alone.
    pub fn new(alloc: Global, program: &Program) -> Result<Self, Memory>
        ensures { IfOk result (λ x. x ≡ record { program = program.now; cpu = first_cpu }) }
    {
        // what a program keeps is wanted below
        let _instrs = program.instrs();
        Ok(Processor {
            guarded: guard(alloc, program)?,
            cpu: Cpu::new(),
        })
    }

    /// The registers, and the place in the plain program.
    pub fn cpu(&self) -> Cpu
        ensures value { result ≡ self.now.cpu }
        ensures within { self.now.cpu.place ≤ length self.now.program }
    {
        Cpu {
            regs: self.cpu.regs,
            place: plain_place(&self.guarded, self.cpu.place),
        }
    }

    /// Executes the check of the next instruction, if it is an access, and tells what the instruction asks for.
    pub fn look(&self, blocks: &Blocks) -> Look
        ensures { LookedAt (next_of self.now.program self.now.cpu (blocks.now.shape.words * blocks.now.shape.blocks))
            blocks.now result }
    {
        let size = u64::from(blocks.shape().size());
        let place = self.cpu.place;
        match check_at(&self.guarded.ops, place) {
            Some((store, base, offset)) => {
                let address = self.cpu.regs[base as usize].wrapping_add(offset);
                match refused(blocks, store, address) {
                    Some(address) => Look::Refused { store, address },
                    None => Look::Goes(asks_at(&self.guarded.ops, place + 1, &self.cpu.regs, size)),
                }
            }
            None => Look::Goes(asks_at(&self.guarded.ops, place, &self.cpu.regs, size)),
        }
    }

    /// Completes the next instruction, if there is one. `loaded` is the word that it loads, if it loads one.
    pub fn finish(&mut self, loaded: u64)
        ensures program { self.new.program ≡ self.old.program }
        ensures cpu { self.new.cpu ≡ finish_of self.old.program self.old.cpu loaded }
    {
        let place = instr_place(&self.guarded.ops, self.cpu.place);
        if let Some(instr) = instr_at(&self.guarded.ops, place) {
            self.cpu.place = place;
            self.cpu.complete(instr, loaded);
        }
    }
}
