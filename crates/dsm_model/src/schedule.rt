ghost use Rattle.std.specs.Prelude.{◌≡◌, ◌∷◌, ◌++◌, ◌<◌, true, false, [], List, IfOk, OnErr, OnOk};
ghost use Rattle.std.specs.List.{filter};
ghost use Rattle.tw_base.specs.declared.entry.Event.TheVariants as event;
ghost use Rattle.tw_base.specs.declared.entry.Entry.{Entry};
ghost use Rattle.dsm_runs.specs.Begun.{HasBegun};
ghost use Rattle.dsm_model.specs.Globals.{setup_of, world_of};
ghost use Rattle.dsm_runs.specs.Schedules.{Advances, Settles, chosen, deliveries, enabled_events, node_events};
ghost use Rattle.dsm_runs.specs.Tests.{has_eligible, is_enabled, may_handle};

use crate::events::{is_early, may_handle, may_instruct};
use crate::{Global, step};
use std::alloc;
use tw_base::{Chan, Entry, Event, Listed, Memory, NodeId};

/// Puts the delivery of a wire behind the others if it is enabled, at a node that may take a message.
fn add_delivery(
    g: &Global,
    at: NodeId,
    from: NodeId,
    chan: Chan,
    some: &mut Listed<Event>,
) -> Result<(), Memory>
    requires at { at < (setup_of g.now).shape.nodes }
    requires from { from < (setup_of g.now).shape.nodes }
    requires may { may_handle (setup_of g.now) ((world_of g.now).locals at) ≡ true }
    requires none { has_eligible ((world_of g.now).locals at).deferred ≡ false }
    ensures { OnOk result (some.new ≡ some.old ++ filter (is_enabled (setup_of g.now) (world_of g.now))
        (event.Deliver at from chan ∷ [])) }
{
    if is_early(g.message(from, at, chan, 0)) {
        some.push(Event::Deliver { at, from, chan })?;
    }
    Ok(())
}

/// Puts the deliveries that are enabled behind the others, at a node that may take a message.
fn add_deliveries(g: &Global, at: NodeId, some: &mut Listed<Event>) -> Result<(), Memory>
    requires at { at < (setup_of g.now).shape.nodes }
    requires may { may_handle (setup_of g.now) ((world_of g.now).locals at) ≡ true }
    requires none { has_eligible ((world_of g.now).locals at).deferred ≡ false }
    ensures { OnOk result (some.new ≡ some.old ++ filter (is_enabled (setup_of g.now) (world_of g.now))
        (deliveries at (setup_of g.now).shape.nodes)) }
{
    for number in 0..g.setup().shape().nodes() {
        let from = NodeId::new(number).unwrap();
        add_delivery(g, at, from, Chan::Zero, some)?;
        add_delivery(g, at, from, Chan::One, some)?;
    }
    Ok(())
}

/// Puts the redelivery and the deliveries of a node that are enabled behind the others. Where a redelivery is, no
/// delivery is.
fn add_handlers(g: &Global, node: NodeId, some: &mut Listed<Event>) -> Result<(), Memory>
    requires { node < (setup_of g.now).shape.nodes }
    ensures { OnOk result (some.new ≡ some.old ++ filter (is_enabled (setup_of g.now) (world_of g.now))
        (event.Redeliver node ∷ deliveries node (setup_of g.now).shape.nodes)) }
{
    let l = g.local(node);
    if !may_handle(g.setup(), node, l) {
        return Ok(());
    }
    if l.deferred.has_eligible() {
        return some.push(Event::Redeliver(node));
    }
    add_deliveries(g, node, some)
}

/// Puts the events of a node that are enabled behind the others.
fn add_enabled(g: &Global, node: NodeId, some: &mut Listed<Event>) -> Result<(), Memory>
    requires { node < (setup_of g.now).shape.nodes }
    ensures { OnOk result (some.new ≡ some.old ++ filter (is_enabled (setup_of g.now) (world_of g.now))
        (node_events (setup_of g.now).shape.nodes node)) }
{
    if may_instruct(g.setup(), node, g.local(node)) {
        some.push(Event::Instr(node))?;
    }
    add_handlers(g, node, some)
}

/// The events that are enabled: by node, in a node the instruction, the redelivery, then deliveries by sender and channel.
fn enabled_events(alloc: alloc::Global, g: &Global) -> Result<Listed<Event>, Memory>
    ensures { IfOk result (λ some. some ≡ enabled_events (setup_of g.now) (world_of g.now)) }
{
    let mut some = Listed::new(alloc);
    for number in 0..g.setup().shape().nodes() {
        let node = NodeId::new(number).unwrap();
        add_enabled(g, node, &mut some)?;
    }
    Ok(some)
}

/// The event that is taken, where `turn` events were taken before. None exactly where there is none.
fn chosen(events: &[Event], turn: u32, stride: u32) -> Option<Event>
    ensures { result ≡ chosen stride turn events.now }
{
    if events.is_empty() {
        return None;
    }
    let number = u64::from(turn) * u64::from(stride) % events.len() as u64;
    events.get(number as usize).copied()
}

/// Makes the event that is taken, where `turn` events were taken before. None exactly where none is enabled.
fn advance(
    alloc: alloc::Global,
    g: &mut Global,
    turn: u32,
    stride: u32,
) -> Result<Option<Entry>, Memory>
    ensures setup { setup_of g.new ≡ setup_of g.old }
    ensures step { IfOk result (λ made. Advances (setup_of g.old) stride turn (world_of g.old) made (world_of g.new)) }
    ensures err { OnErr result (world_of g.new ≡ world_of g.old) }
{
    let some = enabled_events(alloc, g)?;
    let Some(e) = chosen(some.items(), turn, stride) else {
        return Ok(None);
    };
    let entry = step(alloc, g, e)?;
    Ok(Some(entry))
}

fn push_entry(entries: &mut Listed<Entry>, entry: Entry) -> Result<(), Memory>
    ensures { OnOk result (entries.new ≡ entries.old ++ entry ∷ []) }
{
    let _parts = (entry.act, entry.after);
    entries.push(entry)
}

/// Makes the events of the serial schedule until none is enabled, and gives their entries.
///
/// Want of memory is the only error: a run has far fewer than 2^32 events. The events that were made before it stand.
pub fn settle(alloc: alloc::Global, g: &mut Global, stride: u32) -> Result<Listed<Entry>, Memory>
    ensures setup { setup_of g.new ≡ setup_of g.old }
    ensures settles { IfOk result (λ entries. Settles (setup_of g.old) stride 0 (world_of g.old) entries (world_of g.new)) }
    ensures err { OnErr result ((entries : List Entry) × HasBegun (setup_of g.old) stride 0 (world_of g.old) entries (world_of g.new)) }
{
    let mut entries = Listed::new(alloc);
    for turn in 0..u32::MAX {
        let Some(entry) = advance(alloc, g, turn, stride)? else {
            return Ok(entries);
        };
        let _parts = (entry.act, entry.after);
        push_entry(&mut entries, entry)?;
    }
    Err(Memory)
}
