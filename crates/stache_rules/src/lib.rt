//! The shipped protocol is accepted: it is a tree of the grammar and breaks no rule of the language. There is no code
//! here: a law says it of each protocol that is the shipped one but for line numbers.
#![tactic(auto)]

mod laws;

pub use laws::stache_is_accepted;
