ghost use Rattle.trial_laws.specs.Trials.{ReportsStandTrial};

use audit_laws::{read_reports_say_all, reports_of_one_memory_are_explained};
use replay_laws::{printed_runs_are_replayed, replays_have_one_end};
use run_reports::reports_of_runs_are_read_back;

/// The report of a run, with its journal, stands trial behind the text of its input: no line of it is at fault; it is replayed
/// for each number of its events, whatever the protocol, to what the run came to by then; and where one flat memory explains
/// the run, no rule denies it.
pub fn reports_stand_trial()
    ensures { ReportsStandTrial }
{
    reports_of_runs_are_read_back();
    read_reports_say_all();
    printed_runs_are_replayed();
    replays_have_one_end();
    reports_of_one_memory_are_explained();
}
