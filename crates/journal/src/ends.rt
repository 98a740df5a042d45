ghost use Rattle.std.specs.Prelude.{◌≡◌, ℕ, ◌*◌, ◌<◌};
ghost use Rattle.tw_base.specs.Shape.{IsWithinLimits, Sizes};
ghost use Rattle.tw_base.specs.declared.value.Tag.{Tag};
ghost use Rattle.journal.specs.declared.finals.Final.{Final};

use crate::Final;
use tw_base::{BlockId, NodeId, Shape, Tag};

/// All nodes, as they are read at the end of a run: what each keeps of the memory, and how it ended.
pub trait Nodes {
    ghost shape: { Self → Sizes };

    /// By node and block.
    ghost tag: { Self → ℕ → ℕ → Tag };

    /// By node and address.
    ghost word: { Self → ℕ → ℕ → ℕ };

    /// By node.
    ghost ended: { Self → ℕ → Final };

    /// How many nodes, words in a block and blocks there are.
    fn shape(&self) -> Shape
        ensures value { result ≡ shape self.now }
        ensures limits { IsWithinLimits (shape self.now) };

    /// The tag of a block at a node.
    fn tag(&self, node: NodeId, block: BlockId) -> Tag
        requires node { node < (shape self.now).nodes }
        requires block { block < (shape self.now).blocks }
        ensures { result ≡ tag self.now node block };

    /// A node's copy of the word at an address.
    fn word(&self, node: NodeId, address: u32) -> u64
        requires node { node < (shape self.now).nodes }
        requires address { address < (shape self.now).words * (shape self.now).blocks }
        ensures { result ≡ word self.now node address };

    /// How a node ended.
    fn ended(&self, node: NodeId) -> Final
        requires { node < (shape self.now).nodes }
        ensures { result ≡ ended self.now node };
}
