//! The lines of a report: what each line may say, and which of them it has, in their order.
//!
//! `read_lines` answers the lines of a report by their kinds, or the first line that is at fault.
#![tactic(auto)]

mod error;
mod form;
mod kind;
mod lines;
mod reading;
mod slot;

pub use error::{AuditError, AuditRule};
pub use kind::LineKind;
pub use lines::{Printed, PrintedLine};
pub use reading::read_lines;
