//! The code of an accepted protocol keeps the rules of code, and needs little room.
//!
//! `code_keeps_the_rules` says that `verify` of `code_rules` finds no fault in it. `code_needs_little` bounds the slots of its
//! handlers and the depth of its stack.
#![tactic(auto)]

mod laws;

pub use laws::{code_keeps_the_rules, code_needs_little};
