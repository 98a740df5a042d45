//! Stache_D is accepted: it is a tree of the grammar and breaks no rule of the language. There is no code here: a law says it
//! of each protocol that is Stache_D but for line numbers.
#![tactic(auto)]

mod laws;

pub use laws::stache_d_is_accepted;
