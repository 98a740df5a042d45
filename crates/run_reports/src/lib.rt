//! Reports of runs are read back: their numbers have 64 bits where those of their setup have, and so each line is read as it
//! was printed.
#![tactic(auto)]

mod laws;

pub use laws::{numbers_of_runs_are_small, reports_of_runs_are_read_back};
