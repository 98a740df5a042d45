ghost use Rattle.std.specs.Prelude.{◌≡◌, ◌≤◌, ◌<◌, length, IfOk, OnOk, true, is_some};
ghost use Rattle.std.specs.VecDeque.{deque_capacity};
ghost use Rattle.deferred_queues.specs.Queues.{IsEmptyQueue, before, first_before, first_of, freed, pushed};

use crate::held::Held;
use std::alloc::Global;
use std::collections::VecDeque;
use std::marker::Model;
use tw_base::{Memory, Message};

/// The deferred messages of one block, in the order in which they came.
///
/// Those that arrived before `below` are eligible. `first` is the arrival number of the first message, where it is eligible.
#[derive(Drop)]
pub struct Queue {
    held: VecDeque<Held>,
    below: u64,
    first: Option<u64>,
}

impl Model for Queue {
    ghost use Rattle.std.specs.Prelude.{◌≡◌};
    ghost use Rattle.std.specs.VecDeque.{deque_capacity};
    ghost use Rattle.deferred_queues.specs.Queues.{BlockQueue, first_before};

    ghost Value = { BlockQueue };

    ghost view = { λ q. record { held = q.held.items; below = q.below; room = deque_capacity q.held } };

    ghost invariant = { λ q. q.first ≡ first_before q.below q.held.items };
}

/// The arrival number of the first message, where it is eligible.
fn first_before(held: &VecDeque<Held>, below: u64) -> Option<u64>
    ensures { result ≡ first_before below held.now.items }
{
    match held.front() {
        Some(front) if front.arrival < below => Some(front.arrival),
        _ => None,
    }
}

/// Makes room for one more.
fn reserve_one<T: Drop>(items: &mut VecDeque<T>) -> Result<(), Memory>
    ensures items { items.new.items ≡ items.old.items }
    ensures more { deque_capacity items.old ≤ deque_capacity items.new }
    ensures ok { OnOk result (length items.new.items < deque_capacity items.new) }
{
    items.reserve(1)?;
    Ok(())
}

impl Queue {
    /// An empty queue, with room for one message.
    pub fn new(alloc: Global) -> Result<Self, Memory>
        ensures { IfOk result IsEmptyQueue }
    {
        let held = VecDeque::with_capacity(alloc, 1)?;
        Ok(Queue {
            held,
            below: 0,
            first: None,
        })
    }

    /// Makes room for one message more.
    pub fn reserve(&mut self) -> Result<(), Memory>
        ensures held { self.new.held ≡ self.old.held }
        ensures below { self.new.below ≡ self.old.below }
        ensures more { self.old.room ≤ self.new.room }
        ensures ok { OnOk result (length self.new.held < self.new.room) }
    {
        reserve_one(&mut self.held)
    }

    /// The arrival number of the first message, where it is eligible.
    pub fn first(&self) -> Option<u64>
        ensures { result ≡ first_of self.now }
    {
        self.first
    }

    /// Puts a message, for which there is room, behind the others. It is not eligible.
    pub fn push(&mut self, arrival: u64, message: &Message)
        requires room { length self.old.held < self.old.room }
        requires late { self.old.below ≤ arrival }
        ensures { self.new ≡ pushed self.old (record { arrival = arrival; message = message.now }) }
    {
        let message = *message;
        let _parts = (message.args[0], message.payload);
        self.held.push_back_reserved(Held { arrival, message });
    }

    /// Makes the messages that arrived before a number eligible.
    pub fn free(&mut self, below: u64)
        ensures { self.new ≡ freed below self.old }
    {
        self.below = below;
        self.first = first_before(&self.held, below);
    }

    /// Takes the first message, which is eligible.
    pub fn pop(&mut self) -> Held
        requires { is_some (first_of self.old) ≡ true }
        ensures { self.old ≡ before self.new result }
    {
        let Some(held) = self.held.pop_front() else {
            unreachable!()
        };
        self.first = first_before(&self.held, self.below);
        held
    }
}
