//! Reports that are read back: a report stands trial by itself.
//!
//! `read_report` answers the lines of a report by their kinds, or the first line that is at fault. `audit` tells whether one flat
//! memory explains a report, and `replay` gives the state that its first events lead to; each denies the report at a line else.
//! `audit_text`, `replay_text` and `denied_text` are what is written of them.
#![tactic(auto)]

mod reading;

pub use reading::read_report;
pub use report_audit::{Audited, audit, audit_text, denied_text};
pub use report_reader::{AuditError, AuditRule, Printed, PrintedLine};
pub use report_replay::{replay, replay_text};
