//! What a node keeps of the memory: a tag for each block and a word for each address (after the fine-grain tags of
//! Blizzard-S).
//!
//! Each call is a reading or a writing of a map of tags and a list of words, and names all that changes. Only
//! `Blocks::new` takes memory.
#![tactic(auto)]

mod blocks;
mod laws;
mod packed;

pub use blocks::Blocks;
pub use laws::blocks_are_parts_of_the_words;
