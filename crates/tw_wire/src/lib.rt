//! The wires between nodes: one for each sender, receiver and channel, first in first out. No call takes a lock.
//!
//! A wire is a queue under a rule: what was taken and then what the queue holds is what was sent. The rule speaks of two
//! passes, which take no memory: the sender's knows what was sent, and the receiver's what was taken. Once both are back
//! in one thread, what was taken is known to begin what was sent.
#![tactic(auto)]

mod close;
mod columns;
mod ends;
mod make;
mod pass;
mod route;
mod row;
mod rule;
mod wire;
mod wires;

pub use ends::Ends;
pub use pass::{RecvPass, SendPass};
pub use route::Route;
pub use wires::Wires;
