use tw_base::{Data, Value};

/// A record's name in the store.
#[derive(Clone, Copy, Debug, PartialEq, Eq)]
pub struct RecordKey {
    /// The size of the record's room: 0 for at most 4 values that are not `Int(0)`, 1 for 5 to 8, 2 for more.
    pub class: u8,
    /// The record's place among those of its class.
    pub at: usize,
}

/// What a handler leaves when it suspends.
#[derive(Clone, Copy, Debug, PartialEq, Eq)]
pub struct Record {
    /// Which rest of the code follows.
    pub rest: u32,
    /// The values of the handler's slots.
    pub values: [Value; 21],
    /// The data of the handler's message.
    pub came: Option<Data>,
    /// The state that was left, and its arguments.
    pub state: u8,
    pub args: [Value; 4],
    /// The record that was the newest before.
    pub parent: Option<RecordKey>,
    /// How many records the chain has with this one.
    pub depth: u8,
}
