ghost use Rattle.counted_runs.specs.Counted.{CountsAreOne};

use handler_code::enters_once;

/// A run has one count of ops and one of records for each node.
pub fn counts_are_one()
    ensures { CountsAreOne }
{
    enters_once();
}
