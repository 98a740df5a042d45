//! What the replay of a report means: laws alone.
//!
//! A replay comes to one end. A report whose events say what the entries of a run do is replayed: its first events lead to the
//! state that the first entries reach.
#![tactic(auto)]

mod laws;

pub use laws::{printed_runs_are_replayed, replays_have_one_end};
