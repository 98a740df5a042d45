ghost use Rattle.std.specs.Prelude.{◌≡◌, ◌<◌, ◌≤◌, ◌^◌, length};
ghost use Rattle.tw_base.specs.NodeSets.{count, empty, has, one, with, without};

use crate::NodeId;
use std::marker::Model;

#[tactic(auto, using(crate::specs::Bits::bits_back))]
/// A set of nodes, seen as eight truth values: whether each node is a member.
#[derive(Clone, Copy, Debug, PartialEq, Eq)]
pub struct NodeSet {
    // bit k for node k
    bits: u8,
}

impl Model for NodeSet {
    ghost use Rattle.std.specs.Prelude.{List, Bool, ◌<◌, ◌^◌};
    ghost use Rattle.tw_base.specs.NodeSets.{bits_of, tests_of};
    ghost use Rattle.tw_base.specs.Bits.{bits_of-tests_of};

    ghost Value = { List Bool };

    ghost view = { λ s. tests_of 8 s.bits };

    ghost invariant = { λ s. s.bits < 2 ^ 8 };

    ghost inverse = { λ tests. record { bits = bits_of tests } };

    ghost inverse_ok = { λ s h. bits_of-tests_of s h };
}

impl NodeSet {
    pub fn empty() -> Self
        ensures { result ≡ empty }
    {
        NodeSet { bits: 0 }
    }

    /// The set of one node.
    pub fn one(node: NodeId) -> Self
        ensures { result ≡ one node }
    {
        NodeSet::empty().with(node)
    }

    pub fn with(self, node: NodeId) -> Self
        ensures { result ≡ with self node }
    {
        NodeSet {
            bits: self.bits | 1 << node.get(),
        }
    }

    pub fn without(self, node: NodeId) -> Self
        ensures { result ≡ without self node }
    {
        NodeSet {
            bits: self.bits & !(1 << node.get()),
        }
    }

    pub fn has(self, node: NodeId) -> bool
        ensures value { result ≡ has self node }
        ensures eight { length self ≡ 8 }
    {
        self.bits & (1 << node.get()) != 0
    }

    /// How many members it has, 0 to 8.
    pub fn count(self) -> u32
        ensures value { result ≡ count self }
        ensures most { result ≤ 8 }
    {
        self.bits.count_ones()
    }
}
