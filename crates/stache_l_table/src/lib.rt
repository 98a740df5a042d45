//! The table of Stache_L: what each message does to a block, by cases.
#![tactic(auto)]

pub mod laws;
