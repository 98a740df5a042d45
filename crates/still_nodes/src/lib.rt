//! All nodes on one thread: a machine of them that makes the events of a list, or those of a serial schedule, and tells how it
//! ended.
//!
//! A message goes from its sender to the node that it is for at once. Where that node keeps an earlier message of the wire, it
//! waits in a row. What the nodes and the messages between them stand for is a state of the model.
#![tactic(auto)]

mod driving;
mod gathering;
mod handing;
mod making;
mod opening;
mod passing;
mod reading;
mod row;
mod rows;
mod still;
mod taken;
mod telling;

pub use gathering::Gathered;
pub use still::Still;
