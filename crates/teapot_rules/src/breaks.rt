ghost use Rattle.std.specs.Prelude.{◌≡◌, is_none, not};
ghost use Rattle.std.specs.List.{flat_map, list_all};
ghost use Rattle.teapot_tree.specs.declared.protocol.Handler.{Handler};
ghost use Rattle.teapot_tree.specs.declared.protocol.Start.{Start};
ghost use Rattle.teapot_tree.specs.declared.protocol.State.{State};
ghost use Rattle.teapot_tree.specs.Rules.{answers_undeclared, counts_wrongly, is_default, is_wrong_start, has_default};
ghost use Rattle.teapot_tree.specs.Scopes.{state_of};
ghost use Rattle.teapot_rules.specs.Faults.{names_cont};
ghost use Rattle.teapot_rules.specs.Lists.{least, line_if};

use crate::lines::line_if;
use crate::scope::{message_of, state_of};
use crate::steps::{is_cont, is_message_count};
use teapot_tree::{Handler, Protocol, Start, State, Trigger};
use tw_base::{Name, lesser};

/// Whether a handler is for a message that is not declared.
pub fn answers_undeclared(protocol: &Protocol, on: &Trigger) -> bool
    ensures { result ≡ answers_undeclared protocol.now on.now }
{
    match on {
        Trigger::Named(name) => message_of(protocol, name).is_none(),
        _ => false,
    }
}

/// Whether a handler names another number of arguments than its message has.
pub fn counts_wrongly(protocol: &Protocol, on: &Trigger, args: &[Name]) -> bool
    ensures { result ≡ counts_wrongly protocol.now on.now args.now }
{
    match on {
        Trigger::RdFault => args.len() != 0,
        Trigger::WrFault => args.len() != 0,
        Trigger::Named(name) => !is_message_count(protocol, name, args.len()),
        Trigger::Default => false,
    }
}

fn is_wrong_start(protocol: &Protocol, state: &Name) -> bool
    ensures { result ≡ is_wrong_start (state_of protocol.now state.now) }
{
    match state_of(protocol, state) {
        None => false,
        Some(s) => s.params.len() != 0 || s.cont.is_some(),
    }
}

fn is_default(on: &Trigger) -> bool
    ensures { result ≡ is_default on.now }
{
    matches!(on, Trigger::Default)
}

fn has_default(handlers: &[Handler]) -> bool
    ensures { result ≡ not (list_all (λ (h : Handler). not (is_default h.on)) handlers.now) }
{
    for h in handlers {
        if is_default(&h.on) {
            return true;
        }
    }
    false
}

/// Whether the continuation has the name of an argument.
fn names_cont(state: &State) -> bool
    ensures { result ≡ names_cont state.now }
{
    state
        .params
        .items()
        .iter()
        .any(|a| is_cont(&state.cont, &a.name))
}

/// The least line of a start of an undeclared state.
pub fn undeclared_starts(protocol: &Protocol, starts: &[Start]) -> Option<u32>
    ensures { result ≡ least (flat_map (λ (s : Start). line_if (is_none (state_of protocol.now s.state)) s.line) starts.now) }
{
    let mut least = None;
    for s in starts {
        least = lesser(
            least,
            line_if(state_of(protocol, &s.state).is_none(), s.line),
        );
    }
    least
}

/// The least line of a start in a state with arguments or a continuation.
pub fn wrong_starts(protocol: &Protocol, starts: &[Start]) -> Option<u32>
    ensures { result
        ≡ least (flat_map (λ (s : Start). line_if (is_wrong_start (state_of protocol.now s.state)) s.line) starts.now) }
{
    let mut least = None;
    for s in starts {
        least = lesser(least, line_if(is_wrong_start(protocol, &s.state), s.line));
    }
    least
}

/// The least line of a state without a handler for all else.
pub fn without_default(states: &[State]) -> Option<u32>
    ensures { result ≡ least (flat_map (λ (s : State). line_if (not (has_default s)) s.line) states.now) }
{
    let mut least = None;
    for s in states {
        least = lesser(least, line_if(!has_default(s.handlers.items()), s.line));
    }
    least
}

/// The least line of a state whose continuation has the name of an argument.
pub fn clashing_conts(states: &[State]) -> Option<u32>
    ensures { result ≡ least (flat_map (λ (s : State). line_if (names_cont s) s.line) states.now) }
{
    let mut least = None;
    for s in states {
        least = lesser(least, line_if(names_cont(s), s.line));
    }
    least
}
