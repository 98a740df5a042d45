//! The machines that are run as samples, and the summary of such a run.
//!
//! A sample is known by a number alone: its four nodes each add to words of their own, which share blocks with the words of
//! the other nodes, and print one of them at the end.
#![tactic(auto)]

mod setup;
mod text;

pub use setup::sample_setup;
pub use text::summary;
