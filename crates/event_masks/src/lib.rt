//! The events that may happen, told by a word of bits a node, and the k-th of them.
//!
//! Bit 0 of a node's word tells of its instruction, bit 1 of its redelivery, bits 2 + 2 f and 3 + 2 f of the deliveries from
//! node f on its two wires. The events come by node and then by bit, as `all_events` has them.
#![tactic(auto)]

mod masks;
mod words;

pub use words::EventWords;
