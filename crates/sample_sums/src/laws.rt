ghost use Rattle.sample_sums.specs.OneSummary.{SampleHasOneSummary, SamplesEndAlike};

use stache_protocol::shipped_text_is_stache;
use stache_rules::stache_is_accepted;

/// Whichever run of a sample is told, it ends alike: all nodes have halted, far within their budgets, each word is the increment
/// of its node as often as there are rounds, each node printed that number, and no read is broken. So a sample has one summary.
pub fn samples_have_one_summary()
    ensures end { SamplesEndAlike }
    ensures summary { SampleHasOneSummary }
{
    shipped_text_is_stache();
    stache_is_accepted();
}
