//! The lines of a report, token by token: what each of them says of an event, and what the line of an event names.
//!
//! `is_entry` answers whether a line says just what an entry's own line does, `event_in` the event that a line names.
#![tactic(auto)]

mod entry;
mod reading;
mod said;

pub use entry::{is_entry, past_act};
pub use reading::{behind, event_in, kind_of, node_at, node_of, number_at, word_at};
pub use said::{Said, past, says, says_nothing};
