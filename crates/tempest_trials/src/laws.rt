ghost use Rattle.tempest_trials.specs.Laws.{TrialsAreNoMemory, TrialsAreOne};

use replay_laws::replays_have_one_end;

/// A report is audited once, and so many of its events are made anew once: what is written is a function of the setup and
/// the lines. Want of memory is no property of a report.
pub fn trials_are_one()
    ensures one { TrialsAreOne }
    ensures no_memory { TrialsAreNoMemory }
{
    replays_have_one_end();
}
