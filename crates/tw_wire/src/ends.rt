ghost use Rattle.std.specs.Prelude.{◌≡◌, ◌<◌, ◌*◌, Some, length, slice_get};
ghost use Rattle.std.specs.Borrow.{sem};
ghost use Rattle.tw_wire.specs.Places.{place};
ghost use Rattle.tw_wire.specs.Lending.{LendsSend, LendsRecv};

use crate::pass::{RecvPass, SendPass};
use tw_base::{Chan, NodeId};

/// The ends of one node's wires: the passes to push, by receiver and channel, and those to take, by sender and channel.
#[derive(Drop)]
pub struct Ends {
    pub sends: Vec<SendPass>,
    pub recvs: Vec<RecvPass>,
}

// The place of a wire in a row of wires, by the node at its other end and the channel.
pub(crate) fn place(node: NodeId, chan: Chan) -> usize
    ensures { result ≡ place node chan }
{
    let channel = match chan {
        Chan::Zero => 0,
        Chan::One => 1,
    };
    2 * usize::from(node.get()) + channel
}

impl Ends {
    /// The right to push on the wire to this node on this channel, lent. The node is one of those that have wires.
    pub fn send(&mut self, to: NodeId, chan: Chan) -> &mut SendPass
        requires { place to chan < length self.old.sends.items }
        ensures* writes_back { sem 𝓛 (LendsSend self.entry (place to chan) result) }
        ensures value { slice_get self.old.sends.items (place to chan) ≡ Some result.now }
    {
        &mut self.sends[place(to, chan)]
    }

    /// The right to take from the wire from this node on this channel, lent. The node is one of those that have wires.
    pub fn recv(&mut self, from: NodeId, chan: Chan) -> &mut RecvPass
        requires { place from chan < length self.old.recvs.items }
        ensures* writes_back { sem 𝓛 (LendsRecv self.entry (place from chan) result) }
        ensures value { slice_get self.old.recvs.items (place from chan) ≡ Some result.now }
    {
        &mut self.recvs[place(from, chan)]
    }
}
