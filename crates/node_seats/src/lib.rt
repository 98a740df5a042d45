//! A seat: a node with the ends of its wires, as a thread has it that works for the node.
//!
//! What lies under a lock is known by its type alone, so a seat's type names the setup, the code and the wires that it is one
//! of (`Naming`), and keeps that what the node sent was pushed or waits for it, and that what was taken from wires was
//! delivered to the node or is kept by it.
#![tactic(auto)]

mod closed;
mod naming;
mod seat;
mod spot;

pub use closed::Closed;
pub use naming::Naming;
pub use seat::{Opened, Seat};
