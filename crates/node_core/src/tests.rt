ghost use Rattle.std.specs.Prelude.{ℕ, ◌≡◌, ◌+◌, ◌*◌, ◌^◌, ◌<◌, ◌&&◌, not};
ghost use Rattle.std.specs.List.{slice_index_or};
ghost use Rattle.std.specs.Option.{option_copied};
ghost use Rattle.std.specs.Prelude.{None};
ghost use Rattle.handler_code.specs.declared.code.Code.{Code};
ghost use Rattle.dsm_runs.specs.Messages.{place};
ghost use Rattle.dsm_runs.specs.Tests.{has_eligible, is_early, is_ready, is_woken, may_handle, may_instruct};
ghost use Rattle.node_acts.specs.Early.{early_if};
ghost use Rattle.node_core.specs.States.{shown_of};
ghost use Rattle.node_core.specs.Testing.{as_tested};
ghost use Rattle.node_meaning.specs.Nodes.{node_tests};
ghost use Rattle.node_parts.specs.Masks.{IsMask};
ghost use Rattle.node_parts.specs.Truths.{truths};

use crate::state::State;
use dsm_runs::{Mode, Setup};
use node_parts::tests_word;
use tw_base::{Chan, Message, NodeId};

fn is_ready(mode: Mode) -> bool
    ensures { result ≡ is_ready mode }
{
    matches!(mode, Mode::Running | Mode::Woken)
}

fn is_woken(mode: Mode) -> bool
    ensures { result ≡ is_woken mode }
{
    matches!(mode, Mode::Woken)
}

/// Whether the node may make an instruction event.
pub fn may_instruct(setup: &Setup, state: &State) -> bool
    ensures { result ≡ may_instruct setup.now (as_tested setup.now state.now) }
{
    let shape = setup.shape();
    state.failed.is_none()
        && is_ready(state.mode)
        && state.instructions < shape.budget()
        && state.sent < shape.handler_budget()
        && state.clock < u64::MAX
}

/// What a redelivery and a delivery both need of the node, of which is known whether it may make an instruction event.
fn may_handle_beside(setup: &Setup, state: &State, instructs: bool) -> bool
    requires { instructs ≡ may_instruct setup.now (as_tested setup.now state.now) }
    ensures { result ≡ may_handle setup.now (as_tested setup.now state.now) }
{
    let shape = setup.shape();
    state.failed.is_none()
        && !(is_woken(state.mode) && instructs)
        && state.handled < shape.handler_budget()
        && state.sent < shape.handler_budget()
        && state.clock < u64::MAX
}

/// What a redelivery and a delivery both need of the node.
pub fn may_handle(setup: &Setup, state: &State) -> bool
    ensures { result ≡ may_handle setup.now (as_tested setup.now state.now) }
{
    let instructs = may_instruct(setup, state);
    may_handle_beside(setup, state, instructs)
}

fn is_early(front: Option<&Message>) -> bool
    ensures { result ≡ is_early (option_copied front.entry) }
{
    match front {
        Some(message) => message.stamp < u64::MAX,
        None => false,
    }
}

/// Whether the node may redeliver a message.
pub fn may_redeliver(setup: &Setup, state: &State) -> bool
    ensures { result ≡ (may_handle setup.now (as_tested setup.now state.now) && has_eligible state.now.deferred.list) }
{
    may_handle(setup, state) && state.deferred.has_eligible()
}

/// Whether the node takes messages from wires.
pub fn takes_messages(setup: &Setup, state: &State) -> bool
    ensures { result ≡ (may_handle setup.now (as_tested setup.now state.now) && not (has_eligible state.now.deferred.list)) }
{
    may_handle(setup, state) && !state.deferred.has_eligible()
}

/// Whether the node may deliver the front that it keeps of a wire.
pub fn may_deliver(setup: &Setup, state: &State, from: NodeId, chan: Chan) -> bool
    ensures { result ≡ (may_handle setup.now (as_tested setup.now state.now) && (not (has_eligible state.now.deferred.list)
        && is_early (slice_index_or state.now.fronts.items (place from chan) None))) }
{
    may_handle(setup, state)
        && !state.deferred.has_eligible()
        && is_early(state.fronts.front(from, chan))
}

/// The places of the fronts that may be delivered, a bit each: none unless the node takes messages.
fn early_fronts(state: &State, handles: bool, eligible: bool) -> u32
    ensures { (early : ℕ) × IsMask state.now.fronts.items early × (result ≡ early_if handles eligible early) }
{
    let early = state.fronts.early();
    if !handles {
        return 0;
    }
    if eligible {
        return 0;
    }
    early
}

fn both(a: bool, b: bool) -> bool
    ensures { result ≡ (a && b) }
{
    a && b
}

/// All tests of the node as one word of bits.
pub fn all_tests(setup: &Setup, state: &State) -> u32
    ensures tests { (code : Code) (me : ℕ) → truths (2 + 2 * setup.now.shape.nodes) result
        ≡ node_tests (shown_of setup.now code me state.now) }
    ensures small { result < 2 ^ (2 + 2 * setup.now.shape.nodes) }
{
    let instructs = may_instruct(setup, state);
    let handles = may_handle_beside(setup, state, instructs);
    let eligible = state.deferred.has_eligible();
    let early = early_fronts(state, handles, eligible);
    let redelivers = both(handles, eligible);
    let nodes = setup.shape().nodes();
    tests_word(instructs, redelivers, early, nodes)
}
