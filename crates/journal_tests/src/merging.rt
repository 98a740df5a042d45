ghost use Rattle.std.specs.Prelude.{◌≡◌, ◌<◌, IfOk};
ghost use Rattle.dsm_runs.specs.Laws.{IsLog};

use journal::merge;
use std::alloc::Global;
use std::test::Fail;
use tw_base::{Act, Entry, Listed, NodeId};

/// A step of a node, at this stamp.
fn step(node: NodeId, stamp: u64) -> Entry
    ensures { (result.node ≡ node) × (result.stamp ≡ stamp) }
{
    Entry {
        stamp,
        node,
        act: Act::Step,
        sends: 0,
        after: None,
    }
}

/// The log of a node with two steps.
fn two_steps(alloc: Global, node: NodeId, first: u64, second: u64) -> Result<Listed<Entry>, Fail>
    requires { first < second }
    ensures { IfOk result (λ log. IsLog node log) }
{
    let (first, second) = (step(node, first), step(node, second));
    let _parts = (first.act, first.after, second.act, second.after);
    Ok(Listed::from_slice(alloc, &[first, second])?)
}

/// Stamps and nodes of the journal of the logs of nodes 0 and 1.
fn merged(alloc: Global, zero: Listed<Entry>, one: Listed<Entry>) -> Result<Vec<(u64, u8)>, Fail>
    requires zero { IsLog 0 zero }
    requires one { IsLog 1 one }
{
    let mut logs = Vec::new(alloc);
    logs.push(zero)?;
    logs.push(one)?;
    let mut order = Vec::new(alloc);
    let journal = merge(alloc, &logs)?;
    for entry in journal.items() {
        order.push((entry.stamp, entry.node.get()))?;
    }
    Ok(order)
}

#[test]
fn logs_are_merged_by_stamp_and_node(rt: HostRuntime) -> Result<(), Fail> {
    let alloc = rt.alloc();
    let zero = two_steps(alloc, NodeId::new(0).unwrap(), 1, 3)?;
    let one = two_steps(alloc, NodeId::new(1).unwrap(), 1, 2)?;
    let order = merged(alloc, zero, one)?;
    assert_eq!(rt;
        order.as_slice(),
        [(1, 0), (1, 1), (2, 1), (3, 0)].as_slice()
    );
    Ok(())
}
