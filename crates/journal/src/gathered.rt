ghost use Rattle.std.specs.Prelude.{◌≡◌, ◌*◌, ◌<◌, IfOk};
ghost use Rattle.block_tags.specs.Copies.{permits};
ghost use Rattle.journal.specs.Gathered.{least_with, teller_by, told_by, told_words};

use crate::Nodes;
use std::alloc::Global;
use tw_base::{BlockId, Listed, Memory, NodeId, Tag};

// Whether a tag permits a store, or a load.
fn permits(tag: Tag, store: bool) -> bool
    ensures { result ≡ permits tag store }
{
    match tag {
        Tag::Invalid => false,
        Tag::ReadOnly => !store,
        Tag::ReadWrite => true,
    }
}

// The least node whose tag of a block permits a store or a load.
fn least_node<N: Nodes>(nodes: &N, block: BlockId, store: bool) -> Option<NodeId>
    requires { block < (N.shape nodes.now).blocks }
    ensures { result ≡ least_with (N.shape nodes.now).nodes (λ i. N.tag nodes.now i block) store }
{
    for number in 0..nodes.shape().nodes() {
        let node = NodeId::new(number).unwrap();
        if permits(nodes.tag(node, block), store) {
            return Some(node);
        }
    }
    None
}

// The node whose copy of a block is told.
fn teller<N: Nodes>(nodes: &N, block: BlockId) -> NodeId
    requires { block < (N.shape nodes.now).blocks }
    ensures value { result ≡ teller_by (N.shape nodes.now) (N.tag nodes.now) block }
    ensures node { result < (N.shape nodes.now).nodes }
{
    if let Some(writer) = least_node(nodes, block, true) {
        return writer;
    }
    match least_node(nodes, block, false) {
        Some(reader) => reader,
        None => nodes.shape().home(block),
    }
}

fn told_word<N: Nodes>(nodes: &N, address: u32) -> u64
    requires { address < (N.shape nodes.now).words * (N.shape nodes.now).blocks }
    ensures { result ≡ told_by (N.shape nodes.now) (N.tag nodes.now) (N.word nodes.now) address }
{
    let (block, _) = nodes.shape().place_of(u64::from(address)).unwrap();
    nodes.word(teller(nodes, block), address)
}

/// The words of memory, by address: each from the node of least number that may write its block, else of least number
/// that may read it, else from its home.
pub fn words_of<N: Nodes>(alloc: Global, nodes: &N) -> Result<Listed<u64>, Memory>
    ensures { IfOk result (λ words. words ≡ told_words (N.shape nodes.now) (N.tag nodes.now) (N.word nodes.now)) }
{
    let mut words = Listed::new(alloc);
    for address in 0..nodes.shape().size() {
        words.push(told_word(nodes, address))?;
    }
    Ok(words)
}
