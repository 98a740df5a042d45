ghost use Rattle.std.specs.Prelude.{◌≡◌, ◌^◌, ◌<◌, length, map};
ghost use Rattle.compiled_meaning.specs.Whole.{IsCode};
ghost use Rattle.tw_wire.specs.Lending.{shown};
ghost use Rattle.tw_wire.specs.Wires.{AreNew};

use crate::machines::{ALONE, code, setup};
use dsm_runs::Setup;
use handler_code::Code;
use node_runtime::{Cluster, OpenGate};
use node_seats::Naming;
use std::alloc::Global;
use std::marker::Brand;
use std::sync::Wait;
use std::test::Fail;
use std::thread::Threads;
use tw_base::NodeId;
use tw_wire::{Ends, Wires};

/// What turns of the one node answer: a computation turn, and then a handler turn.
fn turns_named<N: Naming, R: Wait>(
    rt: &R,
    alloc: Global,
    setup: &Setup,
    code: &Code,
    wires: Wires,
    ends: Vec<Ends>,
) -> Result<(u32, u32), Fail>
    requires setup { setup.now ≡ N.setup }
    requires code { code.now ≡ N.code }
    requires is_code { IsCode N.setup.protocol N.code }
    requires short { length N.code.ops < 2 ^ 22 }
    requires wires { wires ≡ N.wires }
    requires ends { AreNew N.setup.shape.nodes N.wires (map shown ends.items) }
{
    let cluster = Cluster::<N>::new(alloc, setup, code, wires, ends)?;
    let computed = cluster.comp_turn(rt, 0, 16)?;
    let handled = cluster.handler_turn(rt, 0, 16)?;
    Ok((computed, handled))
}

#[test]
fn a_turn_makes_the_events_of_a_node(rt: HostRuntime) -> Result<(), Fail> {
    let alloc = rt.alloc();
    let setup = setup(alloc, ALONE)?;
    let code = code(alloc, &setup)?;
    let (wires, ends) = Wires::new(alloc, setup.shape().nodes())?;
    let turns = turns_named::<Brand, HostRuntime>(&rt, alloc, &setup, &code, wires, ends)?;
    assert_eq!(rt; turns, (5, 0));
    Ok(())
}

/// How many entries node 0 has, and how many events were made on one thread, after one round of workers.
fn round_named<N: Naming + Send + Sync, R: Threads + Wait + Sync>(
    rt: &R,
    alloc: Global,
    setup: &Setup,
    code: &Code,
    wires: Wires,
    ends: Vec<Ends>,
) -> Result<(usize, usize), Fail>
    requires setup { setup.now ≡ N.setup }
    requires code { code.now ≡ N.code }
    requires is_code { IsCode N.setup.protocol N.code }
    requires short { length N.code.ops < 2 ^ 22 }
    requires wires { wires ≡ N.wires }
    requires ends { AreNew N.setup.shape.nodes N.wires (map shown ends.items) }
{
    let cluster = Cluster::<N>::new(alloc, setup, code, wires, ends)?;
    cluster.rounds(rt, alloc, &OpenGate, 16, 1)?;
    let still = cluster.close(rt, alloc)?;
    let node = still.node(NodeId::new(0).unwrap());
    Ok((node.entries().len(), still.taken().len()))
}

#[test]
fn a_round_makes_all_events_of_a_node_alone(rt: HostRuntime) -> Result<(), Fail> {
    let alloc = rt.alloc();
    let setup = setup(alloc, ALONE)?;
    let code = code(alloc, &setup)?;
    let (wires, ends) = Wires::new(alloc, setup.shape().nodes())?;
    let made = round_named::<Brand, HostRuntime>(&rt, alloc, &setup, &code, wires, ends)?;
    assert_eq!(rt; made, (5, 0));
    Ok(())
}
