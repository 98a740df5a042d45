//! The shipped protocol by cases: the rows of its table, and the text that is printed of them.
#![tactic(auto)]

mod names;
mod rows;
mod text;

pub use rows::{Does, StacheRow, When, row};
pub use text::table;
