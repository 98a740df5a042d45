//! What is counted of a run: the ops of its handlers, and the records that they saved.
#![tactic(auto)]

mod laws;

pub use laws::counts_are_one;
