use tw_base::{BlockId, Message, Trap};

/// What a node's processor does: it goes on, waits for a block, may try its instruction again, or has ended.
#[derive(Clone, Copy, Debug, PartialEq, Eq)]
pub enum Mode {
    Running,
    Blocked(BlockId),
    Woken,
    Halted,
    Trapped(Trap),
}

/// A deferred message. It is eligible where it may be handled again.
#[derive(Clone, Copy, Debug, PartialEq, Eq)]
pub struct Waiting {
    pub message: Message,
    pub eligible: bool,
}
