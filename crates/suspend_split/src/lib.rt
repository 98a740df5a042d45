//! The compiler of a protocol's handlers.
//!
//! `split` gives the code of an accepted protocol, which `IsCode` of the crate below says exactly. `live` gives the slots that
//! code reads before it writes them, which a rest keeps.
#![tactic(auto)]

mod compiler;
mod exprs;
mod handlers;
mod numbers;
mod ops;
mod start;
mod stmts;
mod words;

pub use compiler::split;
pub use live_slots::live;
