use crate::{BlockId, Chan, Kind, NodeId, Tag};

/// Why a processor stopped other than by `halt`.
#[derive(Clone, Copy, Debug, PartialEq, Eq)]
pub enum Trap {
    /// The address is past the memory.
    BadAddress,
    /// There is no instruction at the place.
    FellOff,
}

/// What a load (`store` is false) or a store or fetch-and-add (`store` is true) asks of a block's tag.
#[derive(Clone, Copy, Debug, PartialEq, Eq)]
pub struct Access {
    pub store: bool,
    pub address: u64,
}

/// What can happen next at a node: an instruction, the redelivery of a deferred message, or the delivery of the
/// message at the front of a wire.
#[derive(Clone, Copy, Debug, PartialEq, Eq)]
pub enum Event {
    Instr(NodeId),
    Redeliver(NodeId),
    Deliver {
        at: NodeId,
        from: NodeId,
        chan: Chan,
    },
}

/// How a handler ended. `Failed` has the number of its error's name, counted by first occurrence in the protocol.
#[derive(Clone, Copy, Debug, PartialEq, Eq)]
pub enum End {
    Fine,
    Failed(u32),
    TooDeep,
}

/// What an event did.
#[derive(Clone, Copy, Debug, PartialEq, Eq)]
pub enum Act {
    Load {
        address: u32,
        value: u64,
    },
    Store {
        address: u32,
        value: u64,
    },
    /// `value` is the word loaded, `sum` the word stored.
    Faa {
        address: u32,
        value: u64,
        sum: u64,
    },
    Print {
        value: u64,
    },
    Halt,
    Trapped {
        why: Trap,
    },
    /// An instruction that touches registers and place alone.
    Step,
    /// A refused access, whose fault handler ran.
    Fault {
        store: bool,
        block: BlockId,
    },
    Redelivered {
        kind: Kind,
        block: BlockId,
        from: NodeId,
    },
    Delivered {
        kind: Kind,
        block: BlockId,
        from: NodeId,
        chan: Chan,
        number: u64,
    },
}

/// A block as a handler left it, and how the handler ended.
#[derive(Clone, Copy, Debug, PartialEq, Eq)]
pub struct After {
    pub block: BlockId,
    pub state: u8,
    pub tag: Tag,
    pub end: End,
}

/// One event in a journal: its stamp (a clock after Lamport), its node, what it did, how many messages it sent.
/// `after` is there exactly where a handler ran.
#[derive(Clone, Copy, Debug, PartialEq, Eq)]
pub struct Entry {
    pub stamp: u64,
    pub node: NodeId,
    pub act: Act,
    pub sends: u16,
    pub after: Option<After>,
}
