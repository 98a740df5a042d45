use teapot_tree::Op;
use tw_base::{Listed, Tag, Value};

/// One step of the machine. A place is an index into the list of ops.
#[derive(Clone, Copy, Debug, PartialEq, Eq)]
pub enum OpCode {
    Const(Value),
    Get(u8),
    GetInfo(u8),
    Me,
    Home,
    One,
    Not,
    Count,
    Two(Op),
    Put(u8),
    PutInfo(u8),
    JumpIfNot(u32),
    Jump(u32),
    Tag(Tag),
    Install,
    Enqueue,
    Wake,
    /// The message. Its receiver was pushed first, then its arguments.
    Send(u8),
    /// The message. The set of its receivers was pushed first, then its arguments.
    SendAll(u8),
    /// The state.
    Goto(u8),
    /// The state, and the number of the rest that is saved.
    Suspend(u8, u32),
    Resume,
    /// The number of the error's name.
    Fail(u32),
    Done,
    /// The slot of the loop's variable, that of its set, and the place after the loop.
    EachNext(u8, u8, u32),
    JumpBack(u32),
}

/// What a door is for: a refused load, a refused store, a message by its number in the protocol, or all else.
#[derive(Clone, Copy, Debug, PartialEq, Eq)]
pub enum Kind2 {
    RdFault,
    WrFault,
    Named(u8),
    Default,
}

/// Where the code of a handler begins, and how many slots it has.
#[derive(Clone, Copy, Debug, PartialEq, Eq)]
pub struct Door {
    pub state: u8,
    pub on: Kind2,
    pub at: u32,
    pub slots: u8,
}

/// What follows a `Suspend`: its place, the number of its handler's door, and a bit for each slot that it reads before it
/// writes it.
#[derive(Clone, Copy, Debug, PartialEq, Eq)]
pub struct Rest {
    pub at: u32,
    pub door: u16,
    pub live: u32,
}

/// The code of a protocol's handlers.
#[derive(Debug, Drop)]
pub struct Code {
    pub ops: Listed<OpCode>,
    pub doors: Listed<Door>,
    pub rests: Listed<Rest>,
}
