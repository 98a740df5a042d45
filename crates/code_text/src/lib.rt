//! The text of the code of a protocol's handlers: `code_text` writes what `text_of` defines.
//!
//! For each handler it has a line with the state, the message and the number of slots, a line for each op with its place,
//! and a line for each rest with its live slots; the last line is `end`. It fails only for want of memory.
#![tactic(auto)]

mod doors;
mod ops;
mod rests;

pub use doors::code_text;
