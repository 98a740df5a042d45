//! What the reading of reports means: a law about its definitions.
#![tactic(auto)]

mod laws;

pub use laws::laid_out_reports_are_read;
