//! The numbers of a text have 64 bits, and so have those of the programs that it sets up.
#![tactic(auto)]

mod laws;

pub use laws::{numbers_of_texts_are_small, read_programs_are_small};
