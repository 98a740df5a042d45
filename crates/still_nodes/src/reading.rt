ghost use Rattle.std.specs.Prelude.{◌≡◌, Some};
ghost use Rattle.dsm_runs.specs.Outcomes.{is_spent};
ghost use Rattle.node_meaning.specs.Nodes.{tested};
ghost use Rattle.still_meaning.specs.Reading.{end_of_node};

use crate::Still;
use dsm_model::outcome_by;
use dsm_runs::Mode;
use journal::{Final, Nodes};
use node_core::Node;
use tw_base::{BlockId, NodeId, Shape, Tag};

/// Whether a node handled or sent as many messages as it may, or would go on.
fn is_spent(shape: Shape, node: &Node) -> bool
    requires { shape ≡ node.now.setup.shape }
    ensures { result ≡ is_spent node.now.setup (tested node.now) }
{
    let limit = shape.handler_budget();
    node.handled() == limit
        || node.sent() >= limit
        || matches!(node.mode(), Mode::Running | Mode::Woken)
}

/// How a node ended, with the ops that its handlers made and the records that they saved.
fn final_of(shape: Shape, node: &Node) -> Final
    requires { shape ≡ node.now.setup.shape }
    ensures { result ≡ end_of_node (Some node.now) }
{
    let spent = is_spent(shape, node);
    Final {
        outcome: outcome_by(node.failed(), node.mode(), spent),
        cpu: node.cpu(),
        instructions: node.instructions(),
        handled: node.handled(),
        ops: node.ops(),
        records: u64::from(node.records()),
    }
}

impl Nodes for Still<'_> {
    ghost use Rattle.still_meaning.specs.Reading.{end_at, tag_at, word_at};

    ghost shape = { λ s. s.setup.shape };

    ghost tag = { λ s i block. tag_at s i block };

    ghost word = { λ s i address. word_at s i address };

    ghost ended = { λ s i. end_at s i };

    fn shape(&self) -> Shape {
        self.setup.shape()
    }

    fn tag(&self, node: NodeId, block: BlockId) -> Tag {
        let _setup = &self.setup;
        let read = self.node(node);
        let _log = read.entries();
        read.blocks().tag(block)
    }

    fn word(&self, node: NodeId, address: u32) -> u64 {
        let _setup = &self.setup;
        let read = self.node(node);
        let _log = read.entries();
        read.blocks().peek(address)
    }

    fn ended(&self, node: NodeId) -> Final {
        final_of(self.setup.shape(), self.node(node))
    }
}
