//! Coherence under Stache_L, the directory of two sharers: every event keeps it, beside one flat memory, and pays for what it
//! sends and lets handle.
#![tactic(auto)]

mod laws;

pub use laws::{copies_are_few, events_pay, how_runs_end, runs_are_explained, what_nodes_may_read};
