//! A report that was printed is read back: the lines of its text have the tokens that each was printed for, and stand in the
//! order of their kinds.
#![tactic(auto)]

mod laws;

pub use laws::{
    printed_lines_are_lexed, printed_reports_are_lexed, printed_reports_are_read, runs_are_told,
};
