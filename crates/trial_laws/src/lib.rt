//! Reports of runs stand trial by themselves: a law about what is printed, read, replayed and explained.
#![tactic(auto)]

mod laws;

pub use laws::reports_stand_trial;
