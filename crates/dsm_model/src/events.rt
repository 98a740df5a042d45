ghost use Rattle.std.specs.Prelude.{◌≡◌, ◌↔◌, IsTrue, nat_lt};
ghost use Rattle.std.specs.Option.{option_copied};
ghost use Rattle.dsm_model.specs.Globals.{setup_of, world_of};
ghost use Rattle.dsm_runs.specs.Tests.{is_ready, is_woken, may_instruct, may_handle, is_early, is_enabled};
ghost use Rattle.dsm_model.specs.Views.{local_of};
ghost use Rattle.dsm_runs.specs.Worlds.{IsEnabled};

use crate::{Global, Local, Mode, Setup};
use tw_base::{Event, Message, NodeId};

fn is_ready(mode: Mode) -> bool
    ensures { result ≡ is_ready mode }
{
    matches!(mode, Mode::Running | Mode::Woken)
}

fn is_woken(mode: Mode) -> bool
    ensures { result ≡ is_woken mode }
{
    matches!(mode, Mode::Woken)
}

/// Whether the instruction event of a node is enabled.
pub fn may_instruct(setup: &Setup, me: NodeId, l: &Local) -> bool
    ensures { result ≡ may_instruct setup.now (local_of setup.now me l.now) }
{
    let shape = setup.shape();
    l.failed.is_none()
        && is_ready(l.mode)
        && l.instructions < shape.budget()
        && l.sent < shape.handler_budget()
        && l.clock < u64::MAX
}

/// What a redelivery and a delivery both need of a node.
pub fn may_handle(setup: &Setup, me: NodeId, l: &Local) -> bool
    ensures { result ≡ may_handle setup.now (local_of setup.now me l.now) }
{
    let shape = setup.shape();
    l.failed.is_none()
        && !(is_woken(l.mode) && may_instruct(setup, me, l))
        && l.handled < shape.handler_budget()
        && l.sent < shape.handler_budget()
        && l.clock < u64::MAX
}

pub fn is_early(front: Option<&Message>) -> bool
    ensures { result ≡ is_early (option_copied front.entry) }
{
    match front {
        Some(message) => message.stamp < u64::MAX,
        None => false,
    }
}

fn is_node(setup: &Setup, node: NodeId) -> bool
    ensures { result ≡ nat_lt node setup.now.shape.nodes }
{
    node.get() < setup.shape().nodes()
}

/// Whether an event is enabled. One outside the shape is not.
pub fn enabled(g: &Global, e: Event) -> bool
    ensures test { result ≡ is_enabled (setup_of g.now) (world_of g.now) e }
    ensures meaning { IsTrue result ↔ IsEnabled (setup_of g.now) (world_of g.now) e }
{
    is_enabled(g, e)
}

fn is_enabled(g: &Global, e: Event) -> bool
    ensures { result ≡ is_enabled (setup_of g.now) (world_of g.now) e }
{
    let setup = g.setup();
    match e {
        Event::Instr(i) => is_node(setup, i) && may_instruct(setup, i, g.local(i)),
        Event::Redeliver(i) => {
            is_node(setup, i)
                && may_handle(setup, i, g.local(i))
                && g.local(i).deferred.has_eligible()
        }
        Event::Deliver { at, from, chan } => {
            is_node(setup, at)
                && is_node(setup, from)
                && may_handle(setup, at, g.local(at))
                && !g.local(at).deferred.has_eligible()
                && is_early(g.message(from, at, chan, 0))
        }
    }
}
