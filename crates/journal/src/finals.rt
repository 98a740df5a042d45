ghost use Rattle.std.specs.Prelude.{◌≡◌, IfOk};
ghost use Rattle.journal.specs.Finals.{told_finals};

use crate::Nodes;
use dsm_runs::Outcome;
use mini_asm::Cpu;
use std::alloc::Global;
use tw_base::{Listed, Memory, NodeId};

/// A node at the end of a run: how it ended, its processor, how many instructions it tried and how many messages it
/// handled, and the ops that its handlers made and the records that they saved, 0 where these were not counted.
#[derive(Clone, Copy, Debug)]
pub struct Final {
    pub outcome: Outcome,
    pub cpu: Cpu,
    pub instructions: u32,
    pub handled: u32,
    pub ops: u64,
    pub records: u64,
}

/// How the nodes stand, by node. Their outcomes are those of a state where no event is enabled.
pub fn finals_of<N: Nodes>(alloc: Global, nodes: &N) -> Result<Listed<Final>, Memory>
    ensures { IfOk result (λ finals. finals ≡ told_finals (N.shape nodes.now).nodes (N.ended nodes.now)) }
{
    let mut finals = Listed::new(alloc);
    for number in 0..nodes.shape().nodes() {
        let node = NodeId::new(number).unwrap();
        finals.push(nodes.ended(node))?;
    }
    Ok(finals)
}
