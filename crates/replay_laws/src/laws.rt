ghost use Rattle.replay_laws.specs.Laws.{PrintedRunsAreReplayed, ReplaysHaveOneEnd};

/// A report comes to one state, or is denied at one line.
pub fn replays_have_one_end()
    ensures { ReplaysHaveOneEnd }
{}

/// Where the events of a report say what the entries of a run do, the first of them lead to the state that the first entries
/// reach, whatever the protocol, and none is denied.
pub fn printed_runs_are_replayed()
    ensures { PrintedRunsAreReplayed }
{}
