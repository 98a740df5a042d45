ghost use Rattle.std.specs.Prelude.{◌≡◌, ◌*◌, length, map, IfOk};
ghost use Rattle.dsm_runs.specs.Worlds.{World};
ghost use Rattle.still_meaning.specs.Stills.{IsStill};
ghost use Rattle.still_nodes.specs.Opening.{opened_still};

use crate::rows::rows_of;
use crate::still::Still;
use crate::taken::TakenEntries;
use dsm_runs::Setup;
use handler_code::Code;
use node_core::Node;
use std::alloc::Global;
use tw_base::{Memory, Message};

impl<'a> Still<'a> {
    /// Nodes that were run otherwise, and what is left on the wires between them, by sender, receiver and channel.
    pub fn opened(
        alloc: Global,
        setup: &'a Setup,
        code: &'a Code,
        nodes: Vec<Node<'a>>,
        left: Vec<Vec<Message>>,
    ) -> Result<Self, Memory>
        requires count { length left.items ≡ 2 * setup.now.shape.nodes * setup.now.shape.nodes }
        requires state { (g : World) × IsStill (opened_still setup.now code.now nodes.items (map (λ v. v.items) left.items)) g }
        ensures { let queues = map (λ v. v.items) left.items
            in IfOk result (λ s. s ≡ opened_still setup.entry.now code.entry.now nodes.entry.items queues) }
    {
        let rows = rows_of(alloc, setup.shape().nodes(), left)?;
        Ok(Still {
            setup,
            code,
            nodes,
            rows,
            taken: TakenEntries::new(alloc),
        })
    }
}
