ghost use Rattle.stache_d_inv.specs.Ends.{FaultsAreFollowed, NoBudgetIsSpent, QuietRunsAreDone};
ghost use Rattle.stache_d_inv.specs.Laws.{BlocksHaveReaders, CopiesAreCurrent, EventsKeep, RunsAreExplained, StartsKept};
ghost use Rattle.stache_d_inv.specs.Potential.{EventsPay, RunsAreCounted};

/// Under Stache_D a start is coherent and beside the flat machine, each event keeps that, and so every run is explained by one
/// flat memory: the instructions that completed, executed in the order of the journal on one list of words, do what the journal
/// says (sequential consistency, after Leslie Lamport, How to Make a Multiprocessor Computer That Correctly Executes
/// Multiprocess Programs, 1979).
pub fn runs_are_explained()
    ensures start { StartsKept }
    ensures event { EventsKeep }
    ensures run { RunsAreExplained }
{}

/// What a tag lets a node read is the flat machine's word, and where no message is in flight some node may read each
/// block.
pub fn what_nodes_may_read()
    ensures current { CopiesAreCurrent }
    ensures readers { BlocksHaveReaders }
{}

/// Each event pays for its handler and for what it sends out of a potential that a fault alone raises: in a run of n nodes with
/// k faults at most (3n-1)·k messages are handled and 2n·k sent, and no budget is reached.
pub fn events_pay()
    ensures event { EventsPay }
    ensures run { RunsAreCounted }
    ensures unspent { NoBudgetIsSpent }
{}

/// Where a run is quiet nothing is in flight, nothing is deferred and no node is blocked; and an access that was refused is
/// what its node completes next.
pub fn how_runs_end()
    ensures quiet { QuietRunsAreDone }
    ensures followed { FaultsAreFollowed }
{}
