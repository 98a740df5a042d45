ghost use Rattle.printed_reports.specs.Lexing.{PrintedLinesAreLexed};
ghost use Rattle.printed_reports.specs.Reading.{PrintedReportsAreLexed, PrintedReportsAreRead};
ghost use Rattle.printed_reports.specs.Runs.{RunsAreTold};

use journal::report_has_the_prints;
use report_laws::laid_out_reports_are_read;

/// Lines that are printed behind a text are lexed to the tokens that they were printed for, each line numbered behind those
/// of the text, each token at its place.
#[tactic(auto, using(crate::proofs::Behind::lexed_behind))]
pub fn printed_lines_are_lexed()
    ensures { PrintedLinesAreLexed }
{}

/// A report that is printed behind a text has the lines that it was printed for, where what it names is there and its
/// numbers have 64 bits.
pub fn printed_reports_are_lexed()
    ensures { PrintedReportsAreLexed }
{
    report_has_the_prints();
}

/// Lines that say what the lines of a report do are read as that report: no line is denied, and those of each kind are told
/// in the order in which they were printed. Where they begin in their text, and from which number on, is one.
pub fn printed_reports_are_read()
    ensures { PrintedReportsAreRead }
{
    laid_out_reports_are_read();
}

/// What is told of a run is there: the node, the address, the block, the message, the state and the error of each entry, how
/// each node ended, each word, and the break of the history.
pub fn runs_are_told()
    ensures { RunsAreTold }
{}
