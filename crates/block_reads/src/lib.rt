//! What is read of a block as it stands at a node, under Stache, Stache_D and Stache_L: its state, whose request its
//! continuation serves, and whether the block is one of the protocol's, its continuation whole. A further protocol gives its
//! table in `specs/Tables` and a case where a function takes a `Directory`.
#![tactic(auto)]

mod literal;
mod rest;
mod whose;

pub use literal::{is_literal, place_of, place_seen};
pub use rest::is_rest;
pub use whose::{Whose, rest_read, rest_under};
