ghost use Rattle.std.specs.Prelude.{◌≡◌, ◌≤◌, ◌-◌, drop, replicate};
ghost use Rattle.tw_base.specs.declared.value.Value.TheVariants.{Int};

use crate::{BlockId, Data, NodeId, Value};

/// One of the two wires from a node to a node.
#[derive(Clone, Copy, Debug, PartialEq, Eq)]
pub enum Chan {
    Zero,
    One,
}

/// What a handler answers: a refused load, a refused store, or a message by its number in the protocol.
#[derive(Clone, Copy, Debug, PartialEq, Eq)]
pub enum Kind {
    RdFault,
    WrFault,
    Named(u8),
}

/// A message for a block. It is the `number`-th on its wire, which is named by sender, receiver and channel, and
/// has the stamp of the event that sent it. Its arguments are the first `arg_count` of `args`, the others are 0.
#[derive(Clone, Copy, Debug, PartialEq, Eq)]
pub struct Message {
    pub kind: Kind,
    pub block: BlockId,
    pub from: NodeId,
    pub to: NodeId,
    pub chan: Chan,
    pub number: u64,
    pub stamp: u64,
    pub args: [Value; 4],
    pub arg_count: u8,
    pub payload: Option<Data>,
    ghost few: { arg_count ≤ 4 },
    ghost unused: { drop arg_count args ≡ replicate (4 - arg_count) (Int 0) },
}
