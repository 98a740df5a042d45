//! A node's deferred messages, in a queue for each block.
//!
//! To a contract they are the model's one list (`Waiting`), by arrival. A message is eligible where it arrived before a
//! number that its block keeps, so that the messages of a block are freed by one assignment. After `ready`, no other call
//! takes memory.
#![tactic(auto)]

mod deferred;
mod held;
mod queue;

pub use deferred::Deferred;
