ghost use Rattle.tw_base.specs.Answers.{Gives};
ghost use Rattle.report_reader.specs.Reading.{is_memory};
ghost use Rattle.journal_tools.specs.Reading.{report_in};

use dsm_runs::Setup;
use report_reader::{AuditError, Printed, read_lines};
use std::alloc::Global;
use tw_lex::Line;

/// The lines of a report on a run of a setup, in their order. Denied for a line that does not have the form of its place,
/// and then for an event that is not numbered by its place. A missing line is at `after`.
pub fn read_report(
    alloc: Global,
    setup: &Setup,
    lines: &[Line],
    after: u32,
) -> Result<Printed, AuditError>
    ensures { Gives is_memory (λ p. p) result (report_in setup.now after lines.now) }
{
    read_lines(alloc, setup.version(), setup.shape(), lines, after)
}
