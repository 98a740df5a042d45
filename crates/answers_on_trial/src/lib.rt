//! What the program answers stands trial by itself: a report that it printed, with its journal, passes `audit` and `replay`
//! behind the text that it answered.
#![tactic(auto)]

mod laws;

pub use laws::{serial_answers_stand_trial, thread_answers_stand_trial};
