ghost use Rattle.std.specs.Prelude.{◌≡◌, ◌∷◌, ◌++◌, [], map, IfOk, OnOk};
ghost use Rattle.dsm_runs.specs.Worlds.{World};
ghost use Rattle.still_meaning.specs.Gathers.{IsGathered};
ghost use Rattle.still_meaning.specs.Stills.{IsAtRest, IsStill};

use crate::Still;
use journal::{Final, finals_of, words_of};
use node_core::Node;
use std::alloc::Global;
use std::marker::Model;
use tw_base::{Entry, Listed, Memory};

/// What is gathered of nodes that are at rest.
#[derive(Drop)]
pub struct Gathered {
    /// By node.
    pub logs: Vec<Listed<Entry>>,
    /// In the order in which the events were made.
    pub taken: Listed<Entry>,
    /// By node.
    pub finals: Listed<Final>,
    /// By address.
    pub words: Listed<u64>,
}

impl Model for Gathered {
    ghost use Rattle.still_meaning.specs.Gathers.{GatheredShown};

    ghost Value = { GatheredShown };

    ghost view = { λ g. record { logs = g.logs.items; taken = g.taken; finals = g.finals; words = g.words } };
}

/// Puts the log of a node that is done with behind the others.
fn push_log(logs: &mut Vec<Listed<Entry>>, node: Node<'_>) -> Result<(), Memory>
    ensures { OnOk result (logs.new.items ≡ logs.old.items ++ node.entry.log ∷ []) }
{
    logs.push(node.into_log())?;
    Ok(())
}

/// The logs of nodes that are done with, by node.
fn logs_of(alloc: Global, nodes: Vec<Node<'_>>) -> Result<Vec<Listed<Entry>>, Memory>
    ensures { let all = nodes.entry.items in IfOk result (λ logs. logs.items ≡ map (λ n. n.log) all) }
{
    let mut logs = Vec::new(alloc);
    for node in nodes {
        push_log(&mut logs, node)?;
    }
    Ok(logs)
}

impl<'a> Still<'a> {
    /// What is told of nodes that are at rest.
    pub fn gather(self, alloc: Global) -> Result<Gathered, Memory>
        requires rest { IsAtRest self }
        ensures taken { IfOk result (λ r. r.taken ≡ self.entry.taken) }
        ensures gathered { let s = self.entry in IfOk result (λ r. (g : World) → IsStill s g → IsGathered s.setup s.code g r) }
    {
        let finals = finals_of(alloc, &self)?;
        let words = words_of(alloc, &self)?;
        let Still { nodes, taken, .. } = self;
        let logs = logs_of(alloc, nodes)?;
        Ok(Gathered {
            logs,
            taken: taken.into_listed(),
            finals,
            words,
        })
    }
}
