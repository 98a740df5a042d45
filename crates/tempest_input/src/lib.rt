//! The input text: its lines, its layout, its numbers and programs, and what it is refused for.
#![tactic(auto)]

mod error;
mod head;
mod laws;
mod layout;
mod numbers;
mod setup;

pub use error::{InputError, Why};
pub use head::{Field, Head, Shipped, head_of};
pub use laws::{input_is_valid_or_refused, layout_is_read_both_ways, misfit_is_first};
pub use layout::{Body, Choice, Ending, Init, Layout, Numbered, Section, laid_out};
pub use numbers::{nodes_of, shape_of, words_of};
pub use setup::{Settings, layout_of, lexed, settings_and_report, settings_in, settings_of};
