//! Reads a Teapot protocol from the lines of its text.
//!
//! `parse` answers exactly the tree that the lines give, or the first refusal: a line of no form; then a line that
//! cannot stand at its place, or a missing end; then a line at which a count passes its limit. Its stack does not
//! grow with the depth of expressions or blocks.
#![tactic(auto)]

mod build;
mod count;
mod judge;
mod laws;
mod placed;
mod reading;

pub use count::Many;
pub use laws::{
    given_lines_are_read, lines_nest, read_trees_are_given, refusals_are_exact, refusals_are_first,
    texts_give_trees, texts_have_text_lines,
};
pub use reading::{ParseError, parse};
