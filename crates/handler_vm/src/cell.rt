use cont_store::RecordKey;
use teapot_meaning::Kept;
use tw_base::{End, Value};

/// What a node keeps of a block beside its tag and its words: the state with its arguments, the newest record of what is to
/// be resumed, and the infos. Places past those in use are `Int(0)`.
#[derive(Clone, Copy, Debug, PartialEq, Eq)]
pub struct Cell {
    pub state: u8,
    pub args: [Value; 4],
    pub cont: Option<RecordKey>,
    pub infos: [Value; 8],
}

/// How a handler ended, what is to be done with its message and with deferred ones, and how many ops and records it made.
#[derive(Clone, Copy, Debug, PartialEq, Eq)]
pub struct Ran {
    pub kept: Kept,
    pub freed: bool,
    pub woke: bool,
    pub end: End,
    pub ops: u64,
    pub records: u8,
}
