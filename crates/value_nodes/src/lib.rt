//! Which nodes the values of a compiled handler name.
//!
//! `IsValueWithin n` says that a value names nodes below `n` alone. The machine makes no node: where all that it holds is
//! within `n`, and the code has no node of its own, what it sends and keeps is within `n`. Compiled code has none.
#![tactic(auto)]

mod laws;

pub use laws::{code_has_no_nodes, messages_stay_within, runs_stay_within};
