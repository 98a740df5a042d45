//! Writes a Teapot protocol as its canonical text.
#![tactic(auto)]

mod exprs;
mod keywords;
mod laws;
mod lines;
mod printer;
mod printing;

pub use laws::printed_trees_are_read_back;
pub use printing::print;
