ghost use Rattle.run_reports.specs.Numbers.{NumbersOfRunsAreSmall};
ghost use Rattle.run_reports.specs.Reports.{ReportsOfRunsAreReadBack};

use dsm_runs::runs_are_short;
use printed_reports::{printed_reports_are_lexed, printed_reports_are_read, runs_are_told};
use teapot_sends::handlers_send_few;

/// Where the programs and the first words of a setup have numbers of 64 bits, what is told of its runs has no others.
pub fn numbers_of_runs_are_small()
    ensures { NumbersOfRunsAreSmall }
{
    handlers_send_few();
    runs_are_short();
}

/// The report of a run of such a setup, behind any text that ends its last line, is read as it was printed: no line of it is
/// at fault, and the lines of its events say what the entries of the journal do.
pub fn reports_of_runs_are_read_back()
    ensures { ReportsOfRunsAreReadBack }
{
    printed_reports_are_lexed();
    printed_reports_are_read();
    runs_are_told();
    numbers_of_runs_are_small();
}
