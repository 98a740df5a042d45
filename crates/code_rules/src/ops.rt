ghost use Rattle.std.specs.Prelude.{◌≡◌, ◌<◌, ◌^◌, IfOk, length, true};
ghost use Rattle.code_walks.specs.Jumps.{loops_of};
ghost use Rattle.code_walks.specs.Least.{IsLeast};
ghost use Rattle.code_walks.specs.Parts.{AtOp, Within};
ghost use Rattle.code_rules.specs.Tests.{BreaksAt, is_broken};

use crate::fault::Rule;
use crate::sets::has_own_set;
use code_walks::{
    Loop, Part, first_mistyped, first_on_stack, is_done, is_in_range, leads_well, loops_of, op_at,
    part_at, slot_types,
};
use handler_code::Code;
use std::alloc::Global;
use teapot_tree::{Checked, Protocol};
use tw_base::{Memory, lesser};

/// Whether the op at a place breaks the rule.
fn is_broken(p: &Protocol, code: &Code, loops: &[Loop], part: Part, rule: Rule, at: u32) -> bool
    requires inside { at < part.end }
    requires all { loops.now ≡ loops_of code.now part }
    ensures { result ≡ is_broken p.now code.now part rule at }
{
    let op = op_at(code, at);
    match rule {
        Rule::Ranges => !is_in_range(p, code, part.door.slots, op),
        Rule::Jumps => !leads_well(loops, code, part, at, op),
        Rule::Ends => at + 1 == part.end && !is_done(op),
        Rule::Sets => !has_own_set(code, part, at, op),
        _ => false,
    }
}

/// The least place of the handler at which an op breaks the rule.
fn first_op(p: &Protocol, code: &Code, loops: &[Loop], part: Part, rule: Rule) -> Option<u32>
    requires { loops.now ≡ loops_of code.now part }
    ensures { IsLeast (Within part (λ at. is_broken p.now code.now part rule at ≡ true)) result }
{
    for at in part.door.at..part.end {
        if is_broken(p, code, loops, part, rule, at) {
            return Some(at);
        }
    }
    None
}

/// The least place of the handler at which the rule is broken.
fn first_in(
    alloc: Global,
    p: &Checked,
    code: &Code,
    part: Part,
    rule: Rule,
) -> Result<Option<u32>, Memory>
    ensures { IfOk result (λ o. IsLeast (Within part (BreaksAt p.now code.now rule part)) o) }
{
    let protocol = p.protocol();
    match rule {
        Rule::Stack => Ok(first_on_stack(protocol, code, part)),
        Rule::Types => {
            let slots = slot_types(alloc, p, part.door)?;
            first_mistyped(alloc, protocol, slots.items(), code, part)
        }
        _ => {
            let loops = loops_of(alloc, code, part)?;
            Ok(first_op(protocol, code, loops.items(), part, rule))
        }
    }
}

/// The least place of an op at which the rule is broken.
pub fn first_in_handlers(
    alloc: Global,
    p: &Checked,
    code: &Code,
    rule: Rule,
) -> Result<Option<u32>, Memory>
    requires { length code.now.ops < 2 ^ 32 }
    ensures { IfOk result (λ o. IsLeast (AtOp code.now (BreaksAt p.now code.now rule)) o) }
{
    let mut least = None;
    for number in 0..code.doors.len() {
        let part = part_at(code, number);
        least = lesser(least, first_in(alloc, p, code, part, rule)?);
    }
    Ok(least)
}
