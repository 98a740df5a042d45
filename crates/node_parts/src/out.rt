ghost use Rattle.std.specs.Prelude.{◌≡◌, ◌+◌, ◌-◌, ◌<◌, ◌≤◌, ◌^◌, [], ◌∷◌, ◌++◌, length, slice_get, slice_index, slice_set};
ghost use Rattle.std.specs.Prelude.{option_to_list, replicate, OnOk};
ghost use Rattle.std.specs.Option.{option_copied};
ghost use Rattle.std.specs.VecDeque.{deque_capacity};
ghost use Rattle.dsm_runs.specs.Messages.{place};

use crate::place;
use std::alloc::Global;
use std::collections::VecDeque;
use std::marker::Model;
use tw_base::{Memory, Message};

/// The messages that a node sent and that wait to be handed out, the oldest first, and the number of the next message on
/// each wire from the node.
#[derive(Drop)]
pub struct Out {
    waiting: VecDeque<Message>,
    posted: [u64; 16],
}

impl Model for Out {
    ghost use Rattle.std.specs.VecDeque.{deque_capacity};
    ghost use Rattle.node_parts.specs.Parts.{Posting};

    ghost Value = { Posting };

    ghost view = { λ o. record { waiting = o.waiting.items; posted = o.posted; room = deque_capacity o.waiting } };
}

/// Makes room for as many items more.
fn reserve<T: Drop>(items: &mut VecDeque<T>, count: usize) -> Result<(), Memory>
    ensures items { items.new.items ≡ items.old.items }
    ensures more { deque_capacity items.old ≤ deque_capacity items.new }
    ensures ok { OnOk result (length items.new.items + count ≤ deque_capacity items.new) }
{
    items.reserve(count)?;
    Ok(())
}

/// The message as it goes onto its wire.
fn sent(message: &Message, stamp: u64, number: u64) -> Message
    ensures { result ≡ record message.now { number = number; stamp = stamp } }
{
    let mut sent = *message;
    sent.number = number;
    sent.stamp = stamp;
    sent
}

impl Out {
    /// Nothing waits, and nothing was sent.
    pub fn new(alloc: Global) -> Self
        ensures waiting { result.waiting ≡ [] }
        ensures posted { result.posted ≡ replicate 16 0 }
    {
        Out {
            waiting: VecDeque::new(alloc),
            posted: [0; 16],
        }
    }

    /// Makes room for as many messages more.
    pub fn reserve(&mut self, count: usize) -> Result<(), Memory>
        ensures waiting { self.new.waiting ≡ self.old.waiting }
        ensures posted { self.new.posted ≡ self.old.posted }
        ensures more { self.old.room ≤ self.new.room }
        ensures ok { OnOk result (length self.new.waiting + count ≤ self.new.room) }
    {
        reserve(&mut self.waiting, count)
    }

    /// The message that has waited longest.
    pub fn front(&self) -> Option<&Message>
        ensures { option_copied result ≡ slice_get self.now.waiting 0 }
    {
        self.waiting.front()
    }

    /// Takes the message that has waited longest.
    pub fn pop(&mut self) -> Option<Message>
        ensures first { result ≡ slice_get self.old.waiting 0 }
        ensures popped { self.old.waiting ≡ option_to_list result ++ self.new.waiting }
        ensures posted { self.new.posted ≡ self.old.posted }
        ensures room { self.new.room ≡ self.old.room }
    {
        self.waiting.pop_front()
    }

    /// Gives a message, for which there is room, this stamp and the next number on its wire, and puts it behind the others.
    pub fn post(&mut self, message: &Message, stamp: u64)
        requires room { length self.old.waiting < self.old.room }
        requires few { slice_index self.old.posted (place message.now.to message.now.chan) < 2 ^ 64 - 1 }
        ensures waiting { self.new.waiting ≡ self.old.waiting
            ++ record message.now {
              number = slice_index self.old.posted (place message.now.to message.now.chan);
              stamp = stamp;
            } ∷ [] }
        ensures posted { self.new.posted ≡ slice_set self.old.posted (place message.now.to message.now.chan)
            (slice_index self.old.posted (place message.now.to message.now.chan) + 1) }
        ensures room { self.new.room ≡ self.old.room }
    {
        let at = place(message.to, message.chan);
        let number = self.posted[at];
        let sent = sent(message, stamp, number);
        let _parts = (sent.args[0], sent.payload);
        self.waiting.push_back_reserved(sent);
        self.posted[at] = number + 1;
    }
}
