//! What the audit of a report means: a report that is accepted tells of one flat memory.
#![tactic(auto)]

mod laws;

pub use laws::accepted_reports_are_flat;
