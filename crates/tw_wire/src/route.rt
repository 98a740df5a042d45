use tw_base::{Chan, NodeId};

/// Which wire it is: from a node to a node, on a channel.
#[derive(Clone, Copy)]
pub struct Route {
    pub from: NodeId,
    pub to: NodeId,
    pub chan: Chan,
}
