ghost use Rattle.std.specs.Prelude.{◌≡◌, ◌<◌, is_some, slice_set, true, None, Some};
ghost use Rattle.std.specs.List.{slice_index_or};
ghost use Rattle.tw_base.specs.declared.entry.Event.TheVariants as event;
ghost use Rattle.block_tags.specs.Copies.{tag_of};
ghost use Rattle.dsm_runs.specs.Events.{IsRefused};
ghost use Rattle.dsm_runs.specs.Messages.{place};
ghost use Rattle.dsm_runs.specs.Setups.{asked};
ghost use Rattle.node_core.specs.States.{IsNode, shown_of};
ghost use Rattle.node_meaning.specs.Nodes.{front_at, test_of};
ghost use Rattle.node_meaning.specs.Stands.{Makes};

use crate::handling::{fault_of, handle};
use crate::state::State;
use dsm_runs::{Mode, Setup};
use handler_code::Code;
use node_meaning::{handler_events_are_made, nodes_are_ready_for_handlers};
use node_parts::Fronts;
use tw_base::{Act, BlockId, Chan, Data, Message, NodeId, Value};

/// The event of a refused access: the node is blocked, and its fault is handled.
pub fn fault(setup: &Setup, code: &Code, me: NodeId, state: &mut State, store: bool, block: BlockId)
    requires node { IsNode setup.now code.now me state.old }
    requires ready { state.old.ready ≡ true }
    requires enabled { test_of (shown_of setup.now code.now me state.old) (event.Instr me) ≡ true }
    requires block { block < setup.now.shape.blocks }
    requires refused { IsRefused setup.now (asked setup.now me state.old.processor.cpu) store block
        (tag_of state.old.blocks block) }
    ensures makes { Makes (shown_of setup.now code.now me state.old) (shown_of setup.now code.now me state.new)
        None (event.Instr me) }
    ensures node { IsNode setup.now code.now me state.new }
{
    nodes_are_ready_for_handlers();
    handler_events_are_made();
    let _budget = setup.shape().budget();
    let message = fault_of(store, block, me);
    let stamp = state.clock + 1;
    state.mode = Mode::Blocked(block);
    state.instructions += 1;
    let act = Act::Fault { store, block };
    handle(setup, code, me, state, &message, act, stamp);
}

/// Handles the first eligible message again.
pub fn redeliver(setup: &Setup, code: &Code, me: NodeId, state: &mut State)
    requires node { IsNode setup.now code.now me state.old }
    requires ready { state.old.ready ≡ true }
    requires enabled { test_of (shown_of setup.now code.now me state.old) (event.Redeliver me) ≡ true }
    ensures makes { Makes (shown_of setup.now code.now me state.old) (shown_of setup.now code.now me state.new)
        None (event.Redeliver me) }
    ensures node { IsNode setup.now code.now me state.new }
{
    nodes_are_ready_for_handlers();
    handler_events_are_made();
    let _limit = setup.shape().handler_budget();
    let message = state.deferred.take_first();
    let stamp = state.clock + 1;
    state.handled += 1;
    let act = Act::Redelivered {
        kind: message.kind,
        block: message.block,
        from: message.from,
    };
    handle(setup, code, me, state, &message, act, stamp);
}

/// Takes the message that is kept of the wire from a node, where one is.
fn take_front(fronts: &mut Fronts, from: NodeId, chan: Chan) -> Message
    requires { is_some (slice_index_or fronts.old.items (place from chan) None) ≡ true }
    ensures taken { slice_index_or fronts.old.items (place from chan) None ≡ Some result }
    ensures items { fronts.new.items ≡ slice_set fronts.old.items (place from chan) None }
    ensures accepted { fronts.new.accepted ≡ fronts.old.accepted }
{
    let Some(front) = fronts.front(from, chan) else {
        unreachable!()
    };
    let message = *front;
    fronts.clear(from, chan);
    message
}

/// Handles the message that is kept of the wire from a node.
pub fn deliver(setup: &Setup, code: &Code, me: NodeId, state: &mut State, from: NodeId, chan: Chan)
    requires node { IsNode setup.now code.now me state.old }
    requires ready { state.old.ready ≡ true }
    requires from { from < setup.now.shape.nodes }
    requires enabled { test_of (shown_of setup.now code.now me state.old) (event.Deliver me from chan) ≡ true }
    ensures makes { Makes (shown_of setup.now code.now me state.old) (shown_of setup.now code.now me state.new)
        (front_at (shown_of setup.now code.now me state.old) from chan) (event.Deliver me from chan) }
    ensures node { IsNode setup.now code.now me state.new }
{
    nodes_are_ready_for_handlers();
    handler_events_are_made();
    let _limit = setup.shape().handler_budget();
    // without these the proof does not find the types of a message's parts
    let _value: Option<Value> = None;
    let _data: Option<Data> = None;
    let message = take_front(&mut state.fronts, from, chan);
    let stamp = state.clock.max(message.stamp) + 1;
    state.handled += 1;
    let act = Act::Delivered {
        kind: message.kind,
        block: message.block,
        from,
        chan,
        number: message.number,
    };
    handle(setup, code, me, state, &message, act, stamp);
}
