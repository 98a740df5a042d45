ghost use Rattle.gathered_runs.specs.Runs.{GatheredLogsAreARun, GatheredLogsAreLogs};

/// The logs that were gathered are those of nodes, whose stamps rise, and their merge is a run from the start. It ends in a quiet
/// state, whose ends, words and counts are those that were gathered.
pub fn gathered_logs_are_a_run()
    ensures logs { GatheredLogsAreLogs }
    ensures run { GatheredLogsAreARun }
{}
