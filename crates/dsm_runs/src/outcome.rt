use tw_base::{End, Trap};

/// How a node ended.
#[derive(Clone, Copy, Debug, PartialEq, Eq)]
pub enum Outcome {
    /// A handler failed.
    Failed(End),
    Trapped(Trap),
    /// It may try no more instructions, or handle or send no more messages.
    Spent,
    Halted,
    /// It waits for a block.
    Stuck,
}
