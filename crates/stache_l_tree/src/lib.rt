//! The tree of Stache_L as a literal in plain data, with every line 0: Stache, but at most two caches hold a block read-only.
//! It has no code: protocols are compared with it by definitions (`IsStacheL`).
#![tactic(auto)]

pub mod laws;
