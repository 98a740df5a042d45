//! The text of Stache_D: Stache, but a recall for a reader leaves the owner a read-only copy.
#![tactic(auto)]

mod text;

pub use text::{STACHE_D, stache_d_text};
