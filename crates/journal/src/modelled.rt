use crate::{Final, Nodes};
use dsm_model::{Global, outcome_of};
use tw_base::{BlockId, NodeId, Shape, Tag};

impl Nodes for Global<'_> {
    ghost use Rattle.dsm_model.specs.Globals.{setup_of, world_of};
    ghost use Rattle.journal.specs.Finals.{final_of};
    ghost use Rattle.journal.specs.Gathered.{tag_in, word_in};

    ghost shape = { λ g. (setup_of g).shape };

    ghost tag = { λ g i b. tag_in (world_of g) i b };

    ghost word = { λ g i address. word_in (setup_of g) (world_of g) i address };

    ghost ended = { λ g i. final_of (setup_of g) ((world_of g).locals i) };

    fn shape(&self) -> Shape {
        self.setup().shape()
    }

    fn tag(&self, node: NodeId, block: BlockId) -> Tag {
        self.block(node, block).tag
    }

    fn word(&self, node: NodeId, address: u32) -> u64 {
        Global::word(self, node, address)
    }

    fn ended(&self, node: NodeId) -> Final {
        let l = self.local(node);
        Final {
            outcome: outcome_of(self, node),
            cpu: l.cpu,
            instructions: l.instructions,
            handled: l.handled,
            ops: 0,
            records: 0,
        }
    }
}
