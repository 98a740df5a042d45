ghost use Rattle.std.specs.Prelude.{◌≡◌, ℕ, ◌≤◌, ◌++◌, List, [], None, option_to_list, OnOk, IfOk, IfErr};
ghost use Rattle.std.specs.BTreeMap.{get_by};
ghost use Rattle.std.specs.Cmp.Lexicographic.{slice_cmp};
ghost use Rattle.std.specs.Ordering.{nat_cmp};
ghost use Rattle.mini_asm.specs.declared.parse.ProgramError.TheVariants.{LabelTwice};
ghost use Rattle.tw_base.specs.Answers.{Fails, Gives};
ghost use Rattle.mini_asm.specs.Assembled.{is_code, code_count, code_line, place_of, twice, refuse, jump_to, code_of, codes_of};
ghost use Rattle.mini_asm.specs.Assembled.{is_memory};

use crate::form::{Form, Written};
use crate::{Instr, ProgramError};
use std::alloc::Global;
use std::collections::BTreeMap;
use tw_base::{Memory, Name};

fn is_code(written: &Written) -> bool
    ensures { result ≡ is_code written.now }
{
    matches!(written.form, Form::Code(..))
}

/// The line of the instruction with this number, from 0.
pub fn code_line(number: usize, written: &[Written]) -> Option<u32>
    ensures { result ≡ code_line number written.now }
{
    let mut left = number;
    for w in written {
        if is_code(w) {
            if left == 0 {
                return Some(w.line);
            }
            left -= 1;
        }
    }
    None
}

/// The place of a label.
fn look(places: &BTreeMap<&[u8], u32>, name: &Name) -> Option<u32>
    ensures { result ≡ get_by (λ k. slice_cmp nat_cmp name.now k.now) places.now }
{
    places.get(name.bytes()).copied()
}

/// The places of all labels, or the first line whose label stands on an earlier one.
pub fn places_of<'a>(
    alloc: Global,
    written: &'a [Written],
) -> Result<BTreeMap<&'a [u8], u32>, ProgramError>
    requires { code_count written.now ≤ 4096 }
    ensures once { OnOk result (twice [] written.now ≡ None) }
    ensures places { IfOk result (λ places. (name : List ℕ) →
        get_by (λ k. slice_cmp nat_cmp name k.now) places ≡ place_of written.now name) }
    ensures fault { IfErr result (λ e. Fails is_memory e (refuse LabelTwice (twice [] written.now))) }
{
    let mut places: BTreeMap<&[u8], u32> = BTreeMap::new(alloc);
    let mut place = 0;
    for w in written {
        match &w.form {
            Form::Label(name) => {
                if look(&places, name).is_some() {
                    return Err(ProgramError::LabelTwice { line: w.line });
                }
                places.insert(name.bytes(), place)?;
            }
            Form::Code(..) => place += 1,
        }
    }
    Ok(places)
}

fn jump_to(instr: Instr, place: u32) -> Instr
    ensures { result ≡ jump_to instr place }
{
    match instr {
        Instr::Beq(a, b, _) => Instr::Beq(a, b, place),
        Instr::Bne(a, b, _) => Instr::Bne(a, b, place),
        Instr::Blt(a, b, _) => Instr::Blt(a, b, place),
        Instr::Jmp(_) => Instr::Jmp(place),
        other => other,
    }
}

/// The instruction of a line, if it has one.
fn code_of(places: &BTreeMap<&[u8], u32>, written: &Written) -> Result<Option<Instr>, ProgramError>
    ensures { Gives is_memory option_to_list result (code_of
        (λ name. get_by (λ k. slice_cmp nat_cmp name k.now) places.now) written.now.line written.now.form) }
{
    match &written.form {
        Form::Label(_) => Ok(None),
        Form::Code(instr, target) => match target {
            None => Ok(Some(*instr)),
            Some(label) => match look(places, label) {
                Some(place) => Ok(Some(jump_to(*instr, place))),
                None => Err(ProgramError::NoLabel { line: written.line }),
            },
        },
    }
}

fn push_some(instrs: &mut Vec<Instr>, instr: Option<Instr>) -> Result<(), Memory>
    ensures { OnOk result (instrs.new.items ≡ instrs.old.items ++ option_to_list instr) }
{
    if let Some(instr) = instr {
        instrs.push(instr)?;
    }
    Ok(())
}

/// The instructions of the lines, or the first line whose jump has no label.
pub fn codes_of(
    alloc: Global,
    places: &BTreeMap<&[u8], u32>,
    written: &[Written],
) -> Result<Vec<Instr>, ProgramError>
    ensures { Gives is_memory (λ v. v.items) result (codes_of
        (λ name. get_by (λ k. slice_cmp nat_cmp name k.now) places.now) written.now) }
{
    let mut instrs = Vec::new(alloc);
    for w in written {
        let instr = code_of(places, w)?;
        push_some(&mut instrs, instr)?;
    }
    Ok(instrs)
}
