ghost use Rattle.std.specs.Prelude.{◌≡◌, ℕ, ◌+◌, ◌<◌, ◌≤◌, ◌++◌, [], ◌∷◌, length, slice_index, option_to_list, OnOk, IfOk};
ghost use Rattle.blizzard_guard.specs.Guarding.{check_of, starts_from, moved, ops_of, places_from, guarded, plain_place};

use mini_asm::{Instr, Program};
use std::alloc::Global;
use tw_base::{Listed, Memory};

/// An op of a guarded program.
#[derive(Clone, Copy, Debug, PartialEq, Eq)]
pub enum GuardOp {
    /// Asks whether the tag allows a store (`store` is true) or a load at register `base` plus `offset`.
    Check { store: bool, base: u8, offset: u64 },
    /// An instruction. The place of a jump is that of an op.
    Do(Instr),
}

/// A guarded program: its ops, and the place in the plain program of each op and of the place after the last.
#[derive(Debug, Drop)]
pub struct Guarded {
    pub ops: Listed<GuardOp>,
    pub plain: Listed<u32>,
}

/// The check that stands before an instruction, if it is an access.
fn check_of(instr: Instr) -> Option<GuardOp>
    ensures { option_to_list result ≡ check_of instr }
{
    let (store, base, offset) = match instr {
        Instr::Ld(_, a, n) => (false, a, n),
        Instr::St(_, a, n) | Instr::Faa(_, _, a, n) => (true, a, n),
        _ => return None,
    };
    Some(GuardOp::Check {
        store,
        base,
        offset,
    })
}

/// The place that stands in a list for another.
fn start(starts: &[u32], place: u32) -> u32
    ensures { result ≡ slice_index starts.now place }
{
    starts.get(place as usize).copied().unwrap_or(0)
}

fn moved(starts: &[u32], instr: Instr) -> Instr
    ensures { result ≡ moved (slice_index starts.now) instr }
{
    match instr {
        Instr::Beq(a, b, place) => Instr::Beq(a, b, start(starts, place)),
        Instr::Bne(a, b, place) => Instr::Bne(a, b, start(starts, place)),
        Instr::Blt(a, b, place) => Instr::Blt(a, b, start(starts, place)),
        Instr::Jmp(place) => Instr::Jmp(start(starts, place)),
        other => other,
    }
}

/// The place of the first op of each instruction, and that after the last op.
fn starts_of(alloc: Global, instrs: &[Instr]) -> Result<Vec<u32>, Memory>
    requires { length instrs.now ≤ 4096 }
    ensures { IfOk result (λ starts. starts.items ≡ starts_from 0 instrs.now) }
{
    let mut starts = Vec::new(alloc);
    let mut next = 0;
    for instr in instrs {
        starts.push(next)?;
        next += if check_of(*instr).is_some() { 2 } else { 1 };
    }
    starts.push(next)?;
    Ok(starts)
}

fn add_ops(ops: &mut Listed<GuardOp>, starts: &[u32], instr: Instr) -> Result<(), Memory>
    ensures { OnOk result (ops.new ≡ ops.old ++ (check_of instr ++ GuardOp.Do (moved (slice_index starts.now) instr) ∷ [])) }
{
    if let Some(check) = check_of(instr) {
        ops.push(check)?;
    }
    ops.push(GuardOp::Do(moved(starts, instr)))
}

fn ops_of(alloc: Global, starts: &[u32], instrs: &[Instr]) -> Result<Listed<GuardOp>, Memory>
    ensures { IfOk result (λ ops. ops ≡ ops_of (slice_index starts.now) instrs.now) }
{
    let mut ops = Listed::new(alloc);
    for instr in instrs {
        add_ops(&mut ops, starts, *instr)?;
    }
    Ok(ops)
}

/// The place in the plain program of each op, and then the place after the last.
fn places_of(alloc: Global, instrs: &[Instr]) -> Result<Listed<u32>, Memory>
    requires { length instrs.now ≤ 4096 }
    ensures { IfOk result (λ places. places ≡ places_from 0 instrs.now) }
{
    let mut places = Listed::new(alloc);
    let mut place = 0;
    for instr in instrs {
        if check_of(*instr).is_some() {
            places.push(place)?;
        }
        places.push(place)?;
        place += 1;
    }
    places.push(place)?;
    Ok(places)
}

/// Puts a check before each access, and moves each jump to the first op of its target. Answers `Memory` alone.
pub fn guard(alloc: Global, program: &Program) -> Result<Guarded, Memory>
    ensures { IfOk result (λ g. g ≡ guarded program.now) }
{
    let instrs = program.instrs();
    let starts = starts_of(alloc, instrs)?;
    Ok(Guarded {
        ops: ops_of(alloc, &starts, instrs)?,
        plain: places_of(alloc, instrs)?,
    })
}

/// The place in the plain program of an op, or of the place after the last op.
pub fn plain_place(g: &Guarded, at: u32) -> u32
    requires { at < length g.now.plain }
    ensures { result ≡ plain_place g.now at }
{
    g.plain.items()[at as usize]
}
