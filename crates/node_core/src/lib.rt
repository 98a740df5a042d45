//! A node that runs its program guarded and its protocol's handlers compiled.
//!
//! A node stands for courses of the model: what its log replays to. Each event that it makes is an event of the model at
//! every course that it stood for (`Makes`). `ready` takes the memory of one event, so that an event cannot fail.
#![tactic(auto)]

mod handling;
mod instruct;
mod node;
mod posting;
mod room;
mod start;
mod state;
mod take;
mod tests;

pub use node::Node;
