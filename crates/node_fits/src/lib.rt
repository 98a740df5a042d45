//! Whether a message that came off a wire is one that a node may keep: one of the protocol, for a block of the machine, with
//! nodes of the machine alone in it.
//!
//! A few comparisons an argument, and no memory.
#![tactic(auto)]

mod arguments;
mod fits;

pub use fits::is_fit;
