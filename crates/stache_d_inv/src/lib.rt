//! Under Stache_D every event keeps coherence, beside one flat memory, and pays for what it sends and lets handle.
#![tactic(auto)]

mod laws;

pub use laws::{events_pay, how_runs_end, runs_are_explained, what_nodes_may_read};
