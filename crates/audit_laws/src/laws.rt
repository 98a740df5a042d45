ghost use Rattle.audit_laws.specs.Explained.{ReadReportsSayAll, ReportsOfOneMemoryAreExplained};

use dsm_runs::due_steps_are_flat;
use journal::followed_journals_have_no_break;
use printed_reports::runs_are_told;

/// Where one flat memory explains a run, and comes to the words that are told, the report of the run is explained: no rule
/// denies it, and it has as many events as the run, and as many that completed.
pub fn reports_of_one_memory_are_explained()
    ensures { ReportsOfOneMemoryAreExplained }
{
    runs_are_told();
    due_steps_are_flat();
    followed_journals_have_no_break();
}

/// Where a report with its journal is read back, its lines say what was printed.
pub fn read_reports_say_all()
    ensures { ReadReportsSayAll }
{}
