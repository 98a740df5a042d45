ghost use Rattle.std.specs.Prelude.{◌≡◌, ◌<◌, ◌≤◌, ◌^◌, IfErr, IfOk, OnOk, length};
ghost use Rattle.code_rules.specs.Faults.{FirstBelow, sooner};
ghost use Rattle.code_walks.specs.Least.{IsLeast};
ghost use Rattle.code_rules.specs.Rules.{Breaks, IsFault, KeepsRules, number_of};

use crate::fault::{CodeFault, Fault, Rule};
use crate::ops::first_in_handlers;
use crate::rests::{first_losing, first_unplaced};
use crate::serving::serves_all;
use crate::structure::is_structured;
use handler_code::Code;
use std::alloc::Global;
use teapot_tree::Checked;
use tw_base::Memory;

/// The place after the last op, if a state lacks a door or has two for one kind.
fn unserved(p: &Checked, code: &Code) -> Option<u32>
    requires { length code.now.ops < 2 ^ 32 }
    ensures { IsLeast (λ at. Breaks code.now p.now at Rule.Doors) result }
{
    if serves_all(p.protocol(), code) {
        None
    } else {
        Some(code.ops.len() as u32)
    }
}

/// The least place at which the rule is broken.
fn least_place(alloc: Global, p: &Checked, code: &Code, rule: Rule) -> Result<Option<u32>, Memory>
    requires { length code.now.ops < 2 ^ 32 }
    ensures { IfOk result (λ o. IsLeast (λ at. Breaks code.now p.now at rule) o) }
{
    match rule {
        Rule::Rests => first_unplaced(alloc, code),
        Rule::Live => first_losing(alloc, code),
        Rule::Doors => Ok(unserved(p, code)),
        _ => first_in_handlers(alloc, p, code, rule),
    }
}

/// The rule of this number.
fn rule_of(number: u8) -> Rule
    requires low { 1 ≤ number }
    requires high { number < 10 }
    ensures { number_of result ≡ number }
{
    match number {
        1 => Rule::Ranges,
        2 => Rule::Jumps,
        3 => Rule::Stack,
        4 => Rule::Types,
        5 => Rule::Ends,
        6 => Rule::Rests,
        7 => Rule::Live,
        8 => Rule::Doors,
        _ => Rule::Sets,
    }
}

/// The fault so far, or that of a later rule where its place is less.
fn sooner(first: Option<Fault>, place: Option<u32>, rule: Rule) -> Option<Fault>
    ensures { result ≡ sooner first place rule }
{
    match (first, place) {
        (first, None) => first,
        (None, Some(at)) => Some(Fault { at, rule }),
        (Some(fault), Some(at)) => {
            if at < fault.at {
                Some(Fault { at, rule })
            } else {
                Some(fault)
            }
        }
    }
}

/// The first fault of code whose doors and rests fit.
fn first_fault(alloc: Global, p: &Checked, code: &Code) -> Result<Option<Fault>, Memory>
    requires { length code.now.ops < 2 ^ 32 }
    ensures { IfOk result (λ f. FirstBelow code.now p.now 10 f) }
{
    let mut first = None;
    for number in 1..10 {
        let rule = rule_of(number);
        let place = least_place(alloc, p, code, rule)?;
        first = sooner(first, place, rule);
    }
    Ok(first)
}

/// Ok exactly where the code keeps each rule; otherwise the first fault. Code of 2^32 ops and more is taken as one that
/// there is no memory for.
pub fn verify(alloc: Global, code: &Code, p: &Checked) -> Result<(), CodeFault>
    ensures ok { OnOk result (KeepsRules code.now p.now) }
    ensures err { IfErr result (IsFault code.now p.now) }
{
    let n = code.ops.len();
    if n > u32::MAX as usize {
        return Err(CodeFault::Memory);
    }
    let at = n as u32;
    if !is_structured(p, code) {
        let rule = Rule::Ranges.number();
        return Err(CodeFault::Broken { at, rule });
    }
    match first_fault(alloc, p, code) {
        Err(Memory) => Err(CodeFault::Memory),
        Ok(None) => Ok(()),
        Ok(Some(fault)) => Err(CodeFault::Broken {
            at: fault.at,
            rule: fault.rule.number(),
        }),
    }
}
