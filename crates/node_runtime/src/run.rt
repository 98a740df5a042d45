ghost use Rattle.std.specs.Prelude.{◌≡◌, ℕ, ◌^◌, ◌<◌, List, length, map, IfOk};
ghost use Rattle.tw_base.specs.declared.entry.Entry.{Entry};
ghost use Rattle.compiled_meaning.specs.Whole.{IsCode};
ghost use Rattle.dsm_runs.specs.Laws.{IsLog};
ghost use Rattle.dsm_runs.specs.Merges.{IsMerge};
ghost use Rattle.dsm_runs.specs.Worlds.{World};
ghost use Rattle.gathered_runs.specs.Runs.{IsToldRun};
ghost use Rattle.still_meaning.specs.Gathers.{IsGathered, log_of};
ghost use Rattle.tw_wire.specs.Lending.{shown};
ghost use Rattle.tw_wire.specs.Wires.{AreNew};

use crate::cluster::Cluster;
use crate::gate::Gate;
use dsm_runs::Setup;
use gathered_runs::gathered_logs_are_a_run;
use handler_code::Code;
use node_seats::Naming;
use std::alloc::Global;
use std::marker::Brand;
use std::sync::Wait;
use std::thread::Threads;
use still_nodes::Gathered;
use tw_base::Memory;
use tw_wire::{Ends, Wires};

// Runs all nodes on these wires, under a name for the setup, the code and the wires.
fn run_named<N: Naming + Send + Sync, G: Gate + Sync, R: Threads + Wait + Sync>(
    rt: &R,
    alloc: Global,
    setup: &Setup,
    code: &Code,
    wires: Wires,
    ends: Vec<Ends>,
    gate: &G,
    q: u32,
    idle: u32,
) -> Result<Gathered, Memory>
    requires setup { setup.now ≡ N.setup }
    requires code { code.now ≡ N.code }
    requires is_code { IsCode N.setup.protocol N.code }
    requires short { length N.code.ops < 2 ^ 22 }
    requires wires { wires ≡ N.wires }
    requires ends { AreNew N.setup.shape.nodes N.wires (map shown ends.items) }
    ensures { IfOk result (λ r. (g : World) × IsGathered N.setup N.code g r) }
{
    let cluster = Cluster::<N>::new(alloc, setup, code, wires, ends)?;
    cluster.rounds(rt, alloc, gate, q, idle)?;
    let mut still = cluster.close(rt, alloc)?;
    still.settle(alloc, 0)?;
    still.gather(alloc)
}

/// Runs all nodes of a setup on threads, two workers a node with turns of at most q events, until each has made `idle` turns in a
/// row without an event; then what is left to do, on one thread. The logs that are gathered, merged, are a run of the model
/// that ends quiet, and what else is gathered is that run's.
pub fn run_threads<G: Gate + Sync, R: Threads + Wait + Sync>(
    rt: &R,
    alloc: Global,
    setup: &Setup,
    code: &Code,
    gate: &G,
    q: u32,
    idle: u32,
) -> Result<Gathered, Memory>
    requires code { IsCode setup.now.protocol code.now }
    requires short { length code.now.ops < 2 ^ 22 }
    ensures size { IfOk result (λ r. length r.logs ≡ setup.now.shape.nodes) }
    ensures logs { IfOk result (λ r. (i : ℕ) → i < length r.logs → IsLog i (log_of r.logs i)) }
    ensures run { IfOk result (λ r. (journal : List Entry) → IsMerge setup.now.shape.nodes (log_of r.logs) journal →
        IsToldRun setup.now journal r) }
{
    gathered_logs_are_a_run();
    let (wires, ends) = Wires::new(alloc, setup.shape().nodes())?;
    run_named::<Brand, G, R>(rt, alloc, setup, code, wires, ends, gate, q, idle)
}
