ghost use Rattle.node_meaning.specs.HandlerEvents.{DeliveriesAreMade, FaultsAreMade, ReadyForFaults, ReadyForFirsts};
ghost use Rattle.node_meaning.specs.HandlerEvents.{ReadyForFronts, RedeliveriesAreMade, RunsAreBounded};
ghost use Rattle.node_meaning.specs.Laws.{LowerLaws};

use handler_vm::chains_stay_apart;
use message_facts::eligible_messages_are_freed;
use teapot_sends::handlers_send_few;
use value_nodes::messages_stay_within;

/// What the crates below say of handlers, chains and nodes.
fn lower_laws()
    ensures { LowerLaws }
{
    messages_stay_within();
    chains_stay_apart();
    handlers_send_few();
    eligible_messages_are_freed();
}

/// A node is ready for the handler of each of its events, and the handler's run is bounded.
pub fn nodes_are_ready_for_handlers()
    ensures faults { ReadyForFaults }
    ensures firsts { ReadyForFirsts }
    ensures fronts { ReadyForFronts }
    ensures runs { RunsAreBounded }
{
    lower_laws();
}

/// Where a node did its part of a refused access, a redelivery or a delivery, it made an event of the model, from each
/// course that it stood for, and it is as nodes are.
pub fn handler_events_are_made()
    ensures faults { FaultsAreMade }
    ensures redeliveries { RedeliveriesAreMade }
    ensures deliveries { DeliveriesAreMade }
{
    lower_laws();
}
