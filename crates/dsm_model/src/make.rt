ghost use Rattle.std.specs.Prelude.{◌≡◌, ◌<◌, IfOk, OnErr, length};
ghost use Rattle.tw_base.specs.declared.entry.Event.TheVariants as event;
ghost use Rattle.dsm_model.specs.Kept.{IsKept};
ghost use Rattle.dsm_model.specs.Views.{state_of};
ghost use Rattle.dsm_runs.specs.Worlds.{IsEnabled, Step, event_of};

use crate::instruct::instruct;
use crate::outbox::Outbox;
use crate::take::{deliver, redeliver};
use crate::wires::{send_all, take, wire};
use crate::{Local, Setup};
use std::alloc::Global;
use tw_base::{Chan, Entry, Event, Memory, NodeId};

/// The instruction event of a node.
fn make_instruction(
    alloc: Global,
    setup: &Setup,
    locals: &mut [Local],
    outboxes: &mut [Outbox],
    node: NodeId,
) -> Result<Entry, Memory>
    requires kept { IsKept setup.now locals.old outboxes.old }
    requires enabled { IsEnabled setup.now (state_of setup.now locals.old outboxes.old) (event.Instr node) }
    ensures kept { IsKept setup.now locals.new outboxes.new }
    ensures step { IfOk result (λ entry. (event_of entry ≡ event.Instr node)
        × Step setup.now (state_of setup.now locals.old outboxes.old) entry (state_of setup.now locals.new outboxes.new)) }
    ensures err { OnErr result (state_of setup.now locals.new outboxes.new ≡ state_of setup.now locals.old outboxes.old) }
{
    let made = instruct(
        alloc,
        setup,
        node,
        &mut locals[usize::from(node.get())],
        outboxes,
    )?;
    send_all(outboxes, made.sends.items());
    Ok(made.entry)
}

/// The redelivery of a node.
fn make_redelivery(
    alloc: Global,
    setup: &Setup,
    locals: &mut [Local],
    outboxes: &mut [Outbox],
    node: NodeId,
) -> Result<Entry, Memory>
    requires kept { IsKept setup.now locals.old outboxes.old }
    requires enabled { IsEnabled setup.now (state_of setup.now locals.old outboxes.old) (event.Redeliver node) }
    ensures kept { IsKept setup.now locals.new outboxes.new }
    ensures step { IfOk result (λ entry. (event_of entry ≡ event.Redeliver node)
        × Step setup.now (state_of setup.now locals.old outboxes.old) entry (state_of setup.now locals.new outboxes.new)) }
    ensures err { OnErr result (state_of setup.now locals.new outboxes.new ≡ state_of setup.now locals.old outboxes.old) }
{
    let made = redeliver(
        alloc,
        setup,
        node,
        &mut locals[usize::from(node.get())],
        outboxes,
    )?;
    send_all(outboxes, made.sends.items());
    Ok(made.entry)
}

/// The delivery of the oldest message of a wire.
fn make_delivery(
    alloc: Global,
    setup: &Setup,
    locals: &mut [Local],
    outboxes: &mut [Outbox],
    at: NodeId,
    from: NodeId,
    chan: Chan,
) -> Result<Entry, Memory>
    requires kept { IsKept setup.now locals.old outboxes.old }
    requires enabled { IsEnabled setup.now (state_of setup.now locals.old outboxes.old) (event.Deliver at from chan) }
    ensures kept { IsKept setup.now locals.new outboxes.new }
    ensures step { IfOk result (λ entry. (event_of entry ≡ event.Deliver at from chan)
        × Step setup.now (state_of setup.now locals.old outboxes.old) entry (state_of setup.now locals.new outboxes.new)) }
    ensures err { OnErr result (state_of setup.now locals.new outboxes.new ≡ state_of setup.now locals.old outboxes.old) }
{
    let message = *wire(outboxes, from, at, chan).get(0).unwrap();
    let node = &mut locals[usize::from(at.get())];
    let made = deliver(alloc, setup, at, node, &message, from, chan, outboxes)?;
    take(outboxes, from, at, chan);
    send_all(outboxes, made.sends.items());
    Ok(made.entry)
}

/// Makes an event, which is enabled.
pub fn make(
    alloc: Global,
    setup: &Setup,
    locals: &mut [Local],
    outboxes: &mut [Outbox],
    e: Event,
) -> Result<Entry, Memory>
    requires kept { IsKept setup.now locals.old outboxes.old }
    requires enabled { IsEnabled setup.now (state_of setup.now locals.old outboxes.old) e }
    ensures kept { IsKept setup.now locals.new outboxes.new }
    ensures step { IfOk result (λ entry. (event_of entry ≡ e)
        × Step setup.now (state_of setup.now locals.old outboxes.old) entry (state_of setup.now locals.new outboxes.new)) }
    ensures err { OnErr result (state_of setup.now locals.new outboxes.new ≡ state_of setup.now locals.old outboxes.old) }
{
    match e {
        Event::Instr(node) => make_instruction(alloc, setup, locals, outboxes, node),
        Event::Redeliver(node) => make_redelivery(alloc, setup, locals, outboxes, node),
        Event::Deliver { at, from, chan } => {
            make_delivery(alloc, setup, locals, outboxes, at, from, chan)
        }
    }
}
