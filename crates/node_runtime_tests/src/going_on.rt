ghost use Rattle.std.specs.Prelude.{◌≡◌, ℕ, ◌^◌, ◌<◌, List, length, map, IfOk};
ghost use Rattle.tw_base.specs.declared.entry.Entry.{Entry};
ghost use Rattle.compiled_meaning.specs.Whole.{IsCode};
ghost use Rattle.dsm_runs.specs.Laws.{IsLog};
ghost use Rattle.dsm_runs.specs.Merges.{IsMerge};
ghost use Rattle.dsm_runs.specs.Worlds.{World};
ghost use Rattle.gathered_runs.specs.Runs.{IsToldRun};
ghost use Rattle.still_meaning.specs.Gathers.{IsGathered, log_of};
ghost use Rattle.tw_wire.specs.Lending.{shown};
ghost use Rattle.tw_wire.specs.Wires.{AreNew};

use crate::machines::{ALONE, ALONE_REPORT, BOTH, code, setup};
use crate::runs::{Run, told};
use dsm_runs::Setup;
use gathered_runs::gathered_logs_are_a_run;
use handler_code::Code;
use node_runtime::{Cluster, OpenGate};
use node_seats::Naming;
use std::alloc::Global;
use std::marker::Brand;
use std::sync::Wait;
use std::test::Fail;
use std::thread::Threads;
use still_nodes::Gathered;
use tw_base::Memory;
use tw_wire::{Ends, Wires};

// Rounds of all workers, then rounds again, whatever the two answer; and what is left to do, on one thread. Want of memory in the
// rounds leaves nodes that go on from where they stand.
fn gone_on_named<N: Naming + Send + Sync, R: Threads + Wait + Sync>(
    rt: &R,
    alloc: Global,
    setup: &Setup,
    code: &Code,
    wires: Wires,
    ends: Vec<Ends>,
) -> Result<Gathered, Memory>
    requires setup { setup.now ≡ N.setup }
    requires code { code.now ≡ N.code }
    requires is_code { IsCode N.setup.protocol N.code }
    requires short { length N.code.ops < 2 ^ 22 }
    requires wires { wires ≡ N.wires }
    requires ends { AreNew N.setup.shape.nodes N.wires (map shown ends.items) }
    ensures { IfOk result (λ r. (g : World) × IsGathered N.setup N.code g r) }
{
    let cluster = Cluster::<N>::new(alloc, setup, code, wires, ends)?;
    let _first = cluster.rounds(rt, alloc, &OpenGate, 16, 1000);
    let _second = cluster.rounds(rt, alloc, &OpenGate, 16, 1000);
    let mut still = cluster.close(rt, alloc)?;
    still.settle(alloc, 0)?;
    still.gather(alloc)
}

/// Runs all nodes of a setup, past want of memory in their rounds. The logs that are gathered, merged, are a run of the model
/// that ends quiet, whatever the rounds answered.
fn gone_on<R: Threads + Wait + Sync>(
    rt: &R,
    alloc: Global,
    setup: &Setup,
    code: &Code,
) -> Result<Gathered, Memory>
    requires code { IsCode setup.now.protocol code.now }
    requires short { length code.now.ops < 2 ^ 22 }
    ensures logs { IfOk result (λ r. (i : ℕ) → i < length r.logs → IsLog i (log_of r.logs i)) }
    ensures run { IfOk result (λ r. (journal : List Entry) → IsMerge setup.now.shape.nodes (log_of r.logs) journal
        → IsToldRun setup.now journal r) }
{
    gathered_logs_are_a_run();
    let (wires, ends) = Wires::new(alloc, setup.shape().nodes())?;
    gone_on_named::<Brand, R>(rt, alloc, setup, code, wires, ends)
}

fn run_on<R: Threads + Wait + Sync>(rt: &R, alloc: Global, text: &str) -> Result<Run, Fail> {
    let setup = setup(alloc, text)?;
    let code = code(alloc, &setup)?;
    let gathered = gone_on(rt, alloc, &setup, &code)?;
    told(alloc, &setup, &gathered)
}

// With each request for memory refused in turn, either the test ends for want of memory or its report is right.
#[test]
fn nodes_go_on_after_rounds(rt: HostRuntime) -> Result<(), Fail> {
    let run = run_on(&rt, rt.alloc(), ALONE)?;
    assert_eq!(rt; run.report.as_slice(), ALONE_REPORT.as_bytes());
    Ok(())
}

#[test]
fn two_nodes_go_on_after_rounds(rt: HostRuntime) -> Result<(), Fail> {
    let run = run_on(&rt, rt.alloc(), BOTH)?;
    assert!(rt; run.has_line("word 0 1"));
    assert!(rt; run.has_line("word 1 1"));
    assert!(rt; run.has_line("history agrees"));
    Ok(())
}
