use crate::{Summary, Whose};
use stache_check::Place;
use tw_base::{Data, NodeId, NodeSet, Tag};

/// A block at its home.
#[derive(Clone, Copy)]
pub struct Home {
    pub place: Place,
    pub whose: Whose,
    pub sharers: NodeSet,
    pub owner: NodeId,
    pub acks: u32,
    pub tag: Tag,
    pub words: Data,
}

/// A block at a node, with what is on the way between it and the home and what the home deferred of it.
#[derive(Clone, Copy)]
pub struct Spot {
    pub place: Place,
    pub whose: Whose,
    pub tag: Tag,
    pub words: Data,
    pub ask: Summary,
    pub kept: Summary,
    pub down: Summary,
    pub up: Summary,
}
