ghost use Rattle.std.specs.Prelude.{◌≡◌, ◌<◌};

use tw_base::NodeId;

pub(crate) fn node(k: u8) -> NodeId
    requires { k < 8 }
    ensures { result ≡ k }
{
    NodeId::new(k).unwrap()
}
