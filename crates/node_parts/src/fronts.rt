ghost use Rattle.std.specs.Prelude.{◌≡◌, ◌≢◌, ◌+◌, ◌-◌, ◌<◌, ◌^◌, ℕ, None, Some, slice_index, slice_set, replicate};
ghost use Rattle.std.specs.List.{slice_index_or};
ghost use Rattle.std.specs.Option.{option_copied};
ghost use Rattle.tw_base.specs.Bits.{has_bit};
ghost use Rattle.dsm_runs.specs.Messages.{place};

use crate::place;
use std::marker::Model;
use tw_base::{Chan, Message, NodeId};

/// The message that a node keeps of each wire to it, if it keeps one, and how many it accepted from the wire.
#[derive(Drop)]
pub struct Fronts {
    items: [Option<Message>; 16],
    accepted: [u64; 16],
    // bit k: a message is kept at place k, and its stamp is below the last
    early: u32,
}

impl Model for Fronts {
    ghost use Rattle.node_parts.specs.Parts.{Kept};
    ghost use Rattle.node_parts.specs.Masks.{IsMask};

    ghost Value = { Kept };

    ghost view = { λ f. record { items = f.items; accepted = f.accepted } };

    ghost invariant = { λ f. IsMask f.items f.early };
}

/// The bits, with the one at a place set or cleared.
fn put(bits: u32, place: u8, on: bool) -> u32
    requires { place < 32 }
    ensures here { has_bit result place ≡ on }
    ensures others { (k : ℕ) → k < 32 → k ≢ place → has_bit result k ≡ has_bit bits k }
{
    if on {
        bits | 1 << place
    } else {
        bits & !(1 << place)
    }
}

impl Fronts {
    ghost use Rattle.node_parts.specs.Masks.{IsMask};

    /// Nothing is kept, and nothing was accepted.
    pub fn new() -> Self
        ensures items { result.items ≡ replicate 16 None }
        ensures accepted { result.accepted ≡ replicate 16 0 }
    {
        Fronts {
            items: [None; 16],
            accepted: [0; 16],
            early: 0,
        }
    }

    /// The message that is kept of the wire from a node.
    pub fn front(&self, from: NodeId, chan: Chan) -> Option<&Message>
        ensures { option_copied result ≡ slice_index_or self.now.items (place from chan) None }
    {
        self.items[place(from, chan)].as_ref()
    }

    /// How many messages were accepted from the wire from a node.
    pub fn accepted(&self, from: NodeId, chan: Chan) -> u64
        ensures { result ≡ slice_index self.now.accepted (place from chan) }
    {
        self.accepted[place(from, chan)]
    }

    /// The places with a message that may be delivered, a bit each.
    pub fn early(&self) -> u32
        ensures { IsMask self.now.items result }
    {
        self.early
    }

    /// Keeps a message as the front of its wire.
    pub fn keep(&mut self, message: Message)
        requires { message.number < 2 ^ 64 - 1 }
        ensures items { self.new.items ≡ slice_set self.old.items (place message.from message.chan) (Some message) }
        ensures accepted { self.new.accepted ≡ slice_set self.old.accepted (place message.from message.chan)
            (message.number + 1) }
    {
        let at = place(message.from, message.chan);
        let (number, early) = (message.number, message.stamp < u64::MAX);
        let front = Some(message);
        self.items[at] = front;
        self.early = put(self.early, at as u8, early);
        self.accepted[at] = number + 1;
    }

    /// Keeps nothing of the wire from a node.
    pub fn clear(&mut self, from: NodeId, chan: Chan)
        ensures items { self.new.items ≡ slice_set self.old.items (place from chan) None }
        ensures accepted { self.new.accepted ≡ self.old.accepted }
    {
        let at = place(from, chan);
        self.early = put(self.early, at as u8, false);
        self.items[at] = None;
    }
}
