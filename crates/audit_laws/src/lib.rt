//! Reports of runs that one flat memory explains are explained: no rule denies them.
#![tactic(auto)]

mod laws;

pub use laws::{read_reports_say_all, reports_of_one_memory_are_explained};
