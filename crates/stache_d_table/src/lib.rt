//! The table of Stache_D: what each message does to a block, by cases.
#![tactic(auto)]

pub mod laws;
