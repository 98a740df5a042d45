//! A sample has one summary, whichever of its runs is told. There is no code here: laws say it of each run that comes to rest.
#![tactic(auto)]

mod laws;

pub use laws::samples_have_one_summary;
