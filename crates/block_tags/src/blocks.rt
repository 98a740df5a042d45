ghost use Rattle.std.specs.Prelude.{◌≡◌, ◌*◌, ◌<◌, ◌≤◌, length, map, take, All, IfOk, IsTrue, true, false};
ghost use Rattle.std.specs.List.{range_with_len};
ghost use Rattle.block_tags.specs.Copies.{IsWhole, tag_of, word_at, block_words, allows, with_tag, with_word, with_block};
ghost use Rattle.block_tags.specs.Copies.{first_tag, init_value, at_start};

use crate::packed::PackedTags;
use std::alloc::Global;
use std::marker::Model;
use tw_base::{Access, BlockId, Data, Memory, NodeId, Shape, Tag};

/// The tags and words that a node keeps.
#[derive(Drop)]
pub struct Blocks {
    shape: Shape,
    tags: PackedTags,
    words: Vec<u64>,
}

impl Model for Blocks {
    ghost use Rattle.std.specs.Prelude.{◌≡◌, ◌*◌, take, length};
    ghost use Rattle.tw_base.specs.Shape.{IsWithinLimits};
    ghost use Rattle.block_tags.specs.Copies.{Copies};

    ghost Value = { Copies };

    ghost view = { λ b. record { shape = b.shape; tags = take b.shape.blocks b.tags; words = b.words.items } };

    ghost invariant = { λ b. IsWithinLimits b.shape × (length b.tags ≡ 64)
        × (length b.words.items ≡ b.shape.words * b.shape.blocks) };
}

/// The words of a part, at most eight.
fn data_of(part: &[u64]) -> Data
    requires { length part.now ≤ 8 }
    ensures { result ≡ part.now }
{
    let mut words = [0; 8];
    words[..part.len()].copy_from_slice(part);
    Data {
        words,
        len: part.len() as u8,
    }
}

/// The tags that a node starts with: `home` for the blocks that it is the home of, else `cache`.
fn first_tags(shape: Shape, me: NodeId, home: Tag, cache: Tag) -> PackedTags
    ensures long { length result ≡ 64 }
    ensures tags { take shape.blocks result ≡ map (first_tag shape me home cache) (range_with_len 0 shape.blocks) }
{
    let mut tags = PackedTags::invalid();
    for block in 0..shape.blocks() {
        let tag = if block % shape.nodes() == me.get() {
            home
        } else {
            cache
        };
        tags.set(block, tag);
    }
    tags
}

/// Words of which some have a value.
fn first_words(alloc: Global, size: usize, init: &[(u32, u64)]) -> Result<Vec<u64>, Memory>
    requires { All (λ p. p.0 < size) init.now }
    ensures { IfOk result (λ words. words.items ≡ map (init_value init.now) (range_with_len 0 size)) }
{
    let mut words = vec![in alloc; 0; size]?;
    for at in (0..init.len()).rev() {
        let (address, value) = init[at];
        words[address as usize] = value;
    }
    Ok(words)
}

impl Blocks {
    /// The blocks of a machine at its start, as node `me` has them: the tag `home` where it is the home of a block,
    /// else `cache`; each word has the value that `init` gives its address, else 0.
    pub fn new(
        alloc: Global,
        shape: Shape,
        me: NodeId,
        home: Tag,
        cache: Tag,
        init: &[(u32, u64)],
    ) -> Result<Blocks, Memory>
        requires { All (λ p. p.0 < shape.words * shape.blocks) init.now }
        ensures { IfOk result (λ blocks. blocks ≡ at_start shape me home cache init.now) }
    {
        let words = first_words(alloc, shape.size() as usize, init)?;
        Ok(Blocks {
            shape,
            tags: first_tags(shape, me, home, cache),
            words,
        })
    }

    pub fn shape(&self) -> Shape
        ensures value { result ≡ self.now.shape }
        ensures whole { IsWhole self.now }
    {
        self.shape
    }

    pub fn tag(&self, block: BlockId) -> Tag
        requires { block < self.now.shape.blocks }
        ensures value { result ≡ tag_of self.now block }
        ensures whole { IsWhole self.now }
    {
        self.tags.get(block.get())
    }

    pub fn set_tag(&mut self, block: BlockId, tag: Tag)
        requires { block < self.old.shape.blocks }
        ensures { self.new ≡ with_tag self.old block tag }
    {
        self.tags.set(block.get(), tag);
    }

    /// Whether the tag allows an access of a good address: a load by `ReadOnly` and `ReadWrite`, a store by
    /// `ReadWrite` alone.
    pub fn allows(&self, a: Access) -> bool
        requires { a.address < self.now.shape.words * self.now.shape.blocks }
        ensures { result ≡ allows self.now a.store a.address }
    {
        let block = (a.address / u64::from(self.shape.words())) as u8;
        match self.tags.get(block) {
            Tag::Invalid => false,
            Tag::ReadOnly => !a.store,
            Tag::ReadWrite => true,
        }
    }

    /// The word at an address that may be loaded.
    pub fn load(&self, address: u32) -> u64
        requires good { address < self.now.shape.words * self.now.shape.blocks }
        requires allowed { IsTrue (allows self.now false address) }
        ensures { result ≡ word_at self.now address }
    {
        self.words[address as usize]
    }

    /// Writes the word at an address that may be stored to.
    pub fn store(&mut self, address: u32, value: u64)
        requires good { address < self.old.shape.words * self.old.shape.blocks }
        requires allowed { IsTrue (allows self.old true address) }
        ensures { self.new ≡ with_word self.old address value }
    {
        self.words[address as usize] = value;
    }

    /// The word at an address, whatever the tag.
    pub fn peek(&self, address: u32) -> u64
        requires { address < self.now.shape.words * self.now.shape.blocks }
        ensures value { result ≡ word_at self.now address }
        ensures whole { IsWhole self.now }
    {
        self.words[address as usize]
    }

    /// The words of a block.
    pub fn words(&self, block: BlockId) -> Data
        requires { block < self.now.shape.blocks }
        ensures value { result ≡ block_words self.now block }
        ensures whole { IsWhole self.now }
    {
        let width = self.shape.words() as usize;
        let start = block.get() as usize * width;
        data_of(&self.words[start..start + width])
    }

    /// Puts words in the place of a block's, and leaves its tag.
    pub fn install(&mut self, block: BlockId, contents: Data)
        requires good { block < self.old.shape.blocks }
        requires full { length contents ≡ self.old.shape.words }
        ensures { self.new ≡ with_block self.old block contents }
    {
        let width = self.shape.words() as usize;
        let start = block.get() as usize * width;
        self.words[start..start + width].copy_from_slice(&contents.words[..contents.len as usize]);
    }
}
