//! What printed texts share: text that grows by pieces and by `write!`, and what is printed for the messages, states, errors,
//! tags and wires of a protocol.
//!
//! Nothing fails but for want of memory, and each call says what it adds to a text.
#![tactic(auto)]

mod failures;
mod names;
#[cfg(test)]
mod tests;
mod text;
mod words;

pub use failures::add_failure;
pub use names::Names;
pub use text::Text;
pub use words::{chan_text, fault_text, tag_text, trap_text};
