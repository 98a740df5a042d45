//! Messages handled by compiled handlers, as the protocol means them.
//!
//! `handle` runs the code of an accepted protocol on a message, and leaves what the message means at the block that the
//! node's cell, records, tag and words stand for: the same sends in order, the same marks and end, and a cell and records
//! that stand for the block as the meaning leaves it. `doors` makes the table in which it finds the door of a message.
#![tactic(auto)]

mod handling;
mod laws;

pub use handling::{doors, handle};
