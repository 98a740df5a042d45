ghost use Rattle.std.specs.Prelude.{◌≡◌, ◌<◌, ◌++◌, ◌∷◌, [], if◌then◌else◌, IfOk, OnOk};
ghost use Rattle.tw_base.specs.NodeSets.{has};
ghost use Rattle.teapot_meaning.specs.Depth.{nodes_in};
ghost use Rattle.teapot_meaning.specs.Steps.{least_of};

use std::alloc::Global;
use tw_base::{Listed, Memory, NodeId, NodeSet};

/// The nodes of a set, in rising order.
pub fn nodes_in(alloc: Global, set: NodeSet) -> Result<Listed<NodeId>, Memory>
    ensures { IfOk result (λ nodes. nodes ≡ nodes_in set) }
{
    let mut nodes = Listed::new(alloc);
    for k in 0..8 {
        note(&mut nodes, set, node(k))?;
    }
    Ok(nodes)
}

fn node(k: u8) -> NodeId
    requires { k < 8 }
    ensures { result ≡ k }
{
    NodeId::new(k).unwrap()
}

fn note(nodes: &mut Listed<NodeId>, set: NodeSet, node: NodeId) -> Result<(), Memory>
    ensures { OnOk result (nodes.new ≡ nodes.old ++ (if has set node then node ∷ [] else [])) }
{
    if set.has(node) {
        nodes.push(node)?;
    }
    Ok(())
}

/// The least node of a set.
pub fn least_of(set: NodeSet) -> Option<NodeId>
    ensures { result ≡ least_of set }
{
    for k in 0..8 {
        let least = node(k);
        if set.has(least) {
            return Some(least);
        }
    }
    None
}
