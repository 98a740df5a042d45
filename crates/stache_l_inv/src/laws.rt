ghost use Rattle.coherence_frame.specs.Ends.{FaultsAreFollowed, NoBudgetIsSpent, QuietRunsAreDone};
ghost use Rattle.coherence_frame.specs.Laws.{BlocksHaveReaders, CopiesAreCurrent, EventsKeep, RunsAreExplained, StartsKept};
ghost use Rattle.coherence_frame.specs.Potential.{EventsPay, RunsAreCounted};
ghost use Rattle.stache_l_inv.specs.Laws.{CopiesAreFew};
ghost use Rattle.stache_l_inv.specs.Parts.{wording};

/// Under Stache_L a start is coherent and beside the flat machine, each event keeps that, and so every run is explained by one
/// flat memory: the instructions that completed, executed in the order of the journal on one list of words, do what the journal
/// says.
pub fn runs_are_explained()
    ensures start { StartsKept wording }
    ensures event { EventsKeep wording }
    ensures run { RunsAreExplained wording }
{}

/// What a tag lets a node read is the flat machine's word, and where no message is in flight some node may read each
/// block.
pub fn what_nodes_may_read()
    ensures current { CopiesAreCurrent wording }
    ensures readers { BlocksHaveReaders wording }
{}

/// In every state of a run at most two caches hold a block read-only.
pub fn copies_are_few()
    ensures { CopiesAreFew }
{}

/// Each event pays for its handler and for what it sends out of a potential that a fault alone raises: in a run of n nodes with
/// k faults at most (3n-1)·k messages are handled and 2n·k sent, and no budget is reached.
pub fn events_pay()
    ensures event { EventsPay wording }
    ensures run { RunsAreCounted wording }
    ensures unspent { NoBudgetIsSpent wording }
{}

/// Where a run is quiet nothing is in flight, nothing is deferred and no node is blocked; and an access that was refused is
/// what its node completes next.
pub fn how_runs_end()
    ensures quiet { QuietRunsAreDone wording }
    ensures followed { FaultsAreFollowed wording }
{}
