ghost use Rattle.std.specs.Prelude.{◌<◌, length, IfOk};
ghost use Rattle.still_nodes.specs.Telling.{AreWordsOf, IsWordAt, Tells, TellsBut};

use crate::still::Still;
use event_masks::EventWords;
use node_core::Node;
use std::alloc::Global;
use tw_base::{Memory, NodeId};

/// The tests of nodes, a word a node.
fn words_of(alloc: Global, nodes: &[Node<'_>]) -> Result<Vec<u32>, Memory>
    ensures { IfOk result (λ words. AreWordsOf nodes.now words.items (length nodes.now)) }
{
    let mut words = Vec::new(alloc);
    for node in nodes {
        words.push(node.tests())?;
    }
    Ok(words)
}

impl<'a> Still<'a> {
    /// The tests of all nodes, a word a node.
    pub(crate) fn words(&self, alloc: Global) -> Result<EventWords, Memory>
        ensures { IfOk result (λ words. Tells self.now words) }
    {
        let words = words_of(alloc, &self.nodes)?;
        EventWords::of(alloc, words)
    }

    /// The tests of a node, as the bits of a word.
    pub(crate) fn tests_of(&self, node: NodeId) -> u32
        requires { node < self.now.setup.shape.nodes }
        ensures { IsWordAt self.now node result }
    {
        self.nodes[usize::from(node.get())].tests()
    }

    /// Writes the tests of a node into its word.
    pub(crate) fn tell(&self, node: NodeId, words: &mut EventWords)
        requires node { node < self.now.setup.shape.nodes }
        requires told { TellsBut self.now node words.old }
        ensures { Tells self.now words.new }
    {
        words.set(node, self.tests_of(node));
    }
}
