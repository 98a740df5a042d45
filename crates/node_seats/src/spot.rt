ghost use Rattle.std.specs.Prelude.{◌≡◌, ◌<◌};
ghost use Rattle.tw_wire.specs.Places.{place};

use tw_base::{Chan, NodeId};

/// The node at the other end of a wire at this place, and the wire's channel.
pub fn spot(at: u8) -> (NodeId, Chan)
    requires { at < 16 }
    ensures { place result.0 result.1 ≡ at }
{
    let node = NodeId::new(at / 2).unwrap();
    if at % 2 == 0 {
        (node, Chan::Zero)
    } else {
        (node, Chan::One)
    }
}
