ghost use Rattle.std.specs.Prelude.{◌≡◌, false, true, replicate, slice_set};
ghost use Rattle.std.specs.List.{slice_index_or};
ghost use Rattle.dsm_runs.specs.Messages.{place};

use node_parts::place;
use std::marker::Model;
use tw_base::{Chan, NodeId};

/// Which of the wires to a node are closed to its seat, seen as sixteen truth values, by sender and channel.
#[derive(Drop)]
pub struct Closed {
    wires: [bool; 16],
}

impl Model for Closed {
    ghost use Rattle.std.specs.Prelude.{◌≡◌, Bool, List, length};

    ghost Value = { List Bool };

    ghost view = { λ c. c.wires };

    ghost invariant = { λ c. length c.wires ≡ 16 };
}

impl Closed {
    ghost use Rattle.std.specs.Prelude.{length};

    /// All are open.
    pub fn new() -> Self
        ensures { result ≡ replicate 16 false }
    {
        Closed { wires: [false; 16] }
    }

    /// Whether the wire from a node is closed.
    pub fn is_closed(&self, from: NodeId, chan: Chan) -> bool
        ensures { result ≡ slice_index_or self.now (place from chan) false }
    {
        self.wires[place(from, chan)]
    }

    /// Closes the wire from a node.
    pub fn close(&mut self, from: NodeId, chan: Chan)
        ensures { self.new ≡ slice_set self.old (place from chan) true }
    {
        self.wires[place(from, chan)] = true;
    }
}
