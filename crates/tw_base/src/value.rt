ghost use Rattle.std.specs.Prelude.{◌≡◌, ◌≤◌, ◌<◌, ◌^◌, length, All, IfOk};

use crate::{NodeId, NodeSet};
use std::marker::Model;

/// What a node may do with its copy of a block (after Blizzard-S).
#[derive(Clone, Copy, Debug, PartialEq, Eq)]
pub enum Tag {
    Invalid,
    ReadOnly,
    ReadWrite,
}

/// A value of a protocol's variables.
#[derive(Clone, Copy, Debug, PartialEq, Eq)]
pub enum Value {
    Int(u32),
    Bool(bool),
    Node(NodeId),
    Set(NodeSet),
}

/// The words of a block, at most eight, seen as their list. Places of `words` past `len` are 0.
#[derive(Clone, Copy, Debug, PartialEq, Eq)]
pub struct Data {
    pub words: [u64; 8],
    pub len: u8,
}

impl Model for Data {
    ghost use Rattle.std.specs.Prelude.{List, ℕ, length, take};
    ghost use Rattle.tw_base.specs.Datas.{IsPadded, padded};
    ghost use Rattle.tw_base.specs.Padding.{padded-take};

    ghost Value = { List ℕ };

    ghost view = { λ d. take d.len d.words };

    ghost invariant = { λ d. IsPadded d.len d.words };

    ghost inverse = { λ ws. record { words = padded ws; len = length ws } };

    ghost inverse_ok = { λ d h. padded-take d h };
}
