ghost use Rattle.std.specs.Prelude.{◌≡◌, IfOk};
ghost use Rattle.std.specs.List.{flat_map};
ghost use Rattle.teapot_tree.specs.declared.protocol.State.{State};
ghost use Rattle.teapot_tree.specs.Grammar.{IsTree};
ghost use Rattle.teapot_check.specs.Answering.{IsAnswer};
ghost use Rattle.teapot_check.specs.Handlers.{BreakAlike, lines_in};
ghost use Rattle.teapot_rules.specs.Deeds.{scope_of};
ghost use Rattle.teapot_rules.specs.Faults.{again_handlers, again_messages, again_params, again_states};
ghost use Rattle.teapot_rules.specs.Faults.{handler_lines, lines};
ghost use Rattle.teapot_rules.specs.Firsts.{all_rules, first_of_rules, last_rules, sooner};
ghost use Rattle.teapot_rules.specs.Lists.{least, lesser};

use crate::again::{again, again_named};
use crate::handlers::sights_in;
use crate::sight::Sight;
use crate::walk::body_line;
use std::alloc::Global;
use teapot_rules::{
    Fault, answers_undeclared, clashing_conts, counts_wrongly, line_if, most, sooner,
    undeclared_starts, visible_names, without_default, wrong_starts,
};
use teapot_tree::{Checked, Protocol, Rule, State};
use tw_base::{Memory, lesser};

/// Why a protocol is not accepted.
#[derive(Clone, Copy, Debug, PartialEq, Eq, thiserror::Error)]
pub enum CheckError {
    /// The least line at which a rule is broken, and the first rule that is broken there.
    #[error("{rule:?} at line {line}")]
    Broken { line: u32, rule: Rule },
    #[error("out of memory")]
    Memory,
}

/// The least line of a second handler of its state for a message.
fn second_handlers(states: &[State]) -> Option<u32>
    ensures { result ≡ least (flat_map (λ (s : State). again_handlers s.handlers) states.now) }
{
    let mut least = None;
    for s in states {
        least = lesser(least, again(s.handlers.items()));
    }
    least
}

/// The least line of the handler at which it breaks the rule.
fn handler_line(alloc: Global, sight: &Sight, rule: Rule) -> Result<Option<u32>, Memory>
    ensures { IfOk result (λ l. l ≡ least (handler_lines rule (scope_of sight.now.scope))) }
{
    let h = sight.scope.handler;
    match rule {
        Rule::Undeclared => {
            let own = line_if(answers_undeclared(sight.scope.protocol, &h.on), h.line);
            Ok(lesser(own, body_line(sight, rule)))
        }
        Rule::Twice => {
            let names = visible_names(alloc, &sight.scope)?;
            let later = again_named(alloc, names.items())?;
            Ok(lesser(later, body_line(sight, rule)))
        }
        Rule::ArgCount => {
            let own = line_if(
                counts_wrongly(sight.scope.protocol, &h.on, h.args.items()),
                h.line,
            );
            Ok(lesser(own, body_line(sight, rule)))
        }
        Rule::NoDefault => Ok(None),
        Rule::TooManySends => Ok(line_if(most(h.body.items()) > 32, h.line)),
        Rule::NotTwoStarts => Ok(None),
        Rule::WrongType => Ok(body_line(sight, rule)),
        Rule::ContDropped => Ok(body_line(sight, rule)),
        Rule::ResumeNotLast => Ok(body_line(sight, rule)),
        Rule::ResumeForeign => Ok(body_line(sight, rule)),
        Rule::AfterSuspend => Ok(body_line(sight, rule)),
        Rule::NoData => Ok(body_line(sight, rule)),
    }
}

/// The least line of a handler at which it breaks the rule.
fn in_handlers(alloc: Global, sights: &[Sight], rule: Rule) -> Result<Option<u32>, Memory>
    ensures { IfOk result (λ l. l ≡ least (lines_in rule sights.now)) }
{
    let mut least = None;
    for sight in sights {
        least = lesser(least, handler_line(alloc, sight, rule)?);
    }
    Ok(least)
}

/// The least line of what stands twice in the protocol, other than in one handler.
fn twice_declared(p: &Protocol) -> Option<u32>
    ensures { result ≡ lesser (least (again_messages p.now.messages))
        (lesser (least (again_params p.now.infos)) (least (again_states p.now.states))) }
{
    let infos = again(p.infos.items());
    let states = again(p.states.items());
    lesser(again(p.messages.items()), lesser(infos, states))
}

/// The least line at which the rule is broken.
fn first_line(
    alloc: Global,
    p: &Protocol,
    sights: &[Sight],
    rule: Rule,
) -> Result<Option<u32>, Memory>
    requires { BreakAlike p.now sights.now }
    ensures { IfOk result (λ l. l ≡ least (lines p.now rule)) }
{
    let inner = in_handlers(alloc, sights, rule)?;
    let states = p.states.items();
    match rule {
        Rule::Undeclared => Ok(lesser(undeclared_starts(p, p.starts.items()), inner)),
        Rule::Twice => {
            let handlers = lesser(second_handlers(states), inner);
            let outer = lesser(clashing_conts(states), handlers);
            Ok(lesser(twice_declared(p), outer))
        }
        Rule::ArgCount => Ok(lesser(wrong_starts(p, p.starts.items()), inner)),
        Rule::NoDefault => Ok(without_default(states)),
        Rule::NotTwoStarts => {
            let few = line_if(p.starts.len() < 2, p.line);
            Ok(lesser(again(p.starts.items()), few))
        }
        Rule::WrongType => Ok(inner),
        Rule::ContDropped => Ok(inner),
        Rule::ResumeNotLast => Ok(inner),
        Rule::ResumeForeign => Ok(inner),
        Rule::AfterSuspend => Ok(inner),
        Rule::NoData => Ok(inner),
        Rule::TooManySends => Ok(inner),
    }
}

fn or_earlier(
    alloc: Global,
    p: &Protocol,
    sights: &[Sight],
    rule: Rule,
    later: Option<Fault>,
) -> Result<Option<Fault>, Memory>
    requires { BreakAlike p.now sights.now }
    ensures { IfOk result (λ f. f ≡ sooner (least (lines p.now rule)) rule later) }
{
    let line = first_line(alloc, p, sights, rule)?;
    Ok(sooner(line, rule, later))
}

/// The last six rules.
fn first_of_last(alloc: Global, p: &Protocol, sights: &[Sight]) -> Result<Option<Fault>, Memory>
    requires { BreakAlike p.now sights.now }
    ensures { IfOk result (λ f. f ≡ first_of_rules p.now last_rules) }
{
    let first = or_earlier(alloc, p, sights, Rule::NotTwoStarts, None)?;
    let first = or_earlier(alloc, p, sights, Rule::TooManySends, first)?;
    let first = or_earlier(alloc, p, sights, Rule::NoData, first)?;
    let first = or_earlier(alloc, p, sights, Rule::AfterSuspend, first)?;
    let first = or_earlier(alloc, p, sights, Rule::ResumeForeign, first)?;
    or_earlier(alloc, p, sights, Rule::ResumeNotLast, first)
}

fn first_fault(alloc: Global, p: &Protocol) -> Result<Option<Fault>, Memory>
    ensures { IfOk result (λ f. f ≡ first_of_rules p.now all_rules) }
{
    let sights = sights_in(alloc, p)?;
    let sights = sights.items();
    let first = first_of_last(alloc, p, sights)?;
    let first = or_earlier(alloc, p, sights, Rule::ContDropped, first)?;
    let first = or_earlier(alloc, p, sights, Rule::NoDefault, first)?;
    let first = or_earlier(alloc, p, sights, Rule::ArgCount, first)?;
    let first = or_earlier(alloc, p, sights, Rule::WrongType, first)?;
    let first = or_earlier(alloc, p, sights, Rule::Twice, first)?;
    or_earlier(alloc, p, sights, Rule::Undeclared, first)
}

/// An accepted protocol unchanged, or its first break.
#[tactic(auto, using(teapot_rules::proofs::Firstly::is_first, teapot_rules::proofs::Firstly::is_accepted))]
pub fn check(alloc: Global, p: Protocol) -> Result<Checked, CheckError>
    requires { IsTree p }
    ensures { IsAnswer p result }
{
    match first_fault(alloc, &p) {
        Err(Memory) => Err(CheckError::Memory),
        Ok(Some(fault)) => Err(CheckError::Broken {
            line: fault.line,
            rule: fault.rule,
        }),
        Ok(None) => Ok(Checked::new(p)),
    }
}
