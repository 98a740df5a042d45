ghost use Rattle.std.specs.Prelude.{◌≡◌, ◌++◌, IfOk, OnOk};
ghost use Rattle.teapot_tree.specs.declared.rule.Rule.{Rule};
ghost use Rattle.teapot_check.specs.Handlers.{BreakAlike, lines_in, state_lines};
ghost use Rattle.teapot_rules.specs.Deeds.{scope_of};
ghost use Rattle.teapot_rules.specs.Faults.{handler_lines};

use crate::passing::passes_all;
use crate::sight::Sight;
use std::alloc::Global;
use teapot_rules::Scope;
use teapot_tree::{Protocol, State};
use tw_base::{Listed, Memory};

/// Puts a handler behind the others, unless one look shows that it breaks no rule.
fn keep<'a>(sights: &mut Listed<Sight<'a>>, sight: Sight<'a>) -> Result<(), Memory>
    ensures { OnOk result ((r : Rule) → lines_in r sights.new ≡ lines_in r sights.old
        ++ handler_lines r (scope_of sight.entry.scope)) }
{
    if passes_all(&sight) {
        return Ok(());
    }
    sights.push(sight)
}

/// Puts the handlers of a state that may break a rule behind the others.
fn add<'a>(
    alloc: Global,
    sights: &mut Listed<Sight<'a>>,
    protocol: &'a Protocol,
    state: &'a State,
) -> Result<(), Memory>
    ensures { OnOk result ((r : Rule) → lines_in r sights.new ≡ lines_in r sights.old ++ state_lines r protocol.now state.now) }
{
    let handlers = state.handlers.items();
    for handler in handlers {
        let scope = Scope::new(alloc, protocol, state, handler)?;
        keep(sights, Sight::new(alloc, scope)?)?;
    }
    Ok(())
}

/// The handlers of a protocol that may break a rule.
pub fn sights_in(alloc: Global, protocol: &Protocol) -> Result<Listed<Sight<'_>>, Memory>
    ensures { IfOk result (λ sights. BreakAlike protocol.now sights) }
{
    let mut sights = Listed::new(alloc);
    let states = protocol.states.items();
    for state in states {
        add(alloc, &mut sights, protocol, state)?;
    }
    Ok(sights)
}
