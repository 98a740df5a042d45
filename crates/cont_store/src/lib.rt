//! The records that suspended handlers leave, under keys.
//!
//! A record is kept small: a mask of the slots whose value is not `Int(0)`, and these values alone, in a room for four,
//! for eight or for all. Only `Conts::reserve` takes memory, so that a handler that may suspend never lacks it.
#![tactic(auto)]

mod conts;
mod packed;
mod packing;
mod record;

pub use conts::Conts;
pub use record::{Record, RecordKey};
