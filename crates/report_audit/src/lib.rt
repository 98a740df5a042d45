//! A report beside one flat memory.
//!
//! `audit` executes the instructions that a report tells of on the flat machine, which has processors and words and nothing
//! else, in the order of the report. The report is explained where they do what their lines say, and its prints, words,
//! registers and nodes are those that the machine comes to; else it is denied at a line (`audited`).
#![tactic(auto)]

mod auditing;
mod due;
mod execute;
mod lines;
mod nodes;
mod text;

pub use auditing::{Audited, audit};
pub use due::Due;
pub use execute::Executed;
pub use text::{audit_text, denied_text};
