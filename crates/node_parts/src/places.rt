ghost use Rattle.std.specs.Prelude.{◌≡◌, ◌<◌};
ghost use Rattle.dsm_runs.specs.Messages.{place};

use tw_base::{Chan, NodeId};

/// The place of a wire in a row of sixteen, by the node at its other end and the channel.
pub fn place(node: NodeId, chan: Chan) -> usize
    ensures place { result ≡ place node chan }
    ensures small { result < 16 }
{
    match chan {
        Chan::Zero => 2 * usize::from(node.get()),
        Chan::One => 2 * usize::from(node.get()) + 1,
    }
}
