ghost use Rattle.std.specs.Prelude.{◌≡◌, ◌<◌};
ghost use Rattle.dsm_model.specs.Globals.{setup_of, world_of};
ghost use Rattle.dsm_runs.specs.Outcomes.{is_spent, outcome_by, outcome_in, outcome_of};
ghost use Rattle.dsm_model.specs.Views.{local_of};

use crate::{Global, Local, Mode, Outcome, Setup};
use tw_base::{End, NodeId};

fn is_spent(setup: &Setup, me: NodeId, l: &Local) -> bool
    ensures { result ≡ is_spent setup.now (local_of setup.now me l.now) }
{
    let limit = setup.shape().handler_budget();
    l.handled == limit || l.sent >= limit || matches!(l.mode, Mode::Running | Mode::Woken)
}

fn outcome_in(mode: Mode, spent: bool) -> Outcome
    ensures { result ≡ outcome_in mode spent }
{
    match mode {
        Mode::Trapped(why) => Outcome::Trapped(why),
        Mode::Blocked(_) if !spent => Outcome::Stuck,
        Mode::Halted if !spent => Outcome::Halted,
        _ => Outcome::Spent,
    }
}

/// How a node ended, by how a handler failed there, what its processor does, and whether it spent its budget.
pub fn outcome_by(failed: Option<End>, mode: Mode, spent: bool) -> Outcome
    ensures { result ≡ outcome_by failed mode spent }
{
    match failed {
        Some(end) => Outcome::Failed(end),
        None => outcome_in(mode, spent),
    }
}

/// How a node ended, where no event is enabled: the first that fits of failed, trapped, spent, halted and stuck.
pub fn outcome_of(g: &Global, node: NodeId) -> Outcome
    requires { node < (setup_of g.now).shape.nodes }
    ensures { result ≡ outcome_of (setup_of g.now) ((world_of g.now).locals node) }
{
    let l = g.local(node);
    outcome_by(l.failed, l.mode, is_spent(g.setup(), node, l))
}
