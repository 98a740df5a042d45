//! The text of Stache_L: Stache, but at most two caches hold a block read-only. Before a third may read,
//! the copy of one of the two is invalidated.
#![tactic(auto)]

mod text;

pub use text::{STACHE_L, stache_l_text};
