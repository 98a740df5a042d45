ghost use Rattle.std.specs.Prelude.{◌≡◌, ◌≤◌, ◌<◌, ◌+◌, [], ◌∷◌, ◌++◌, length, slice_get, OnOk, option_to_list};
ghost use Rattle.std.specs.Option.{option_copied};
ghost use Rattle.std.specs.VecDeque.{deque_capacity};

use std::alloc::Global;
use std::collections::VecDeque;
use std::marker::Model;
use tw_base::{Memory, Message};

/// The messages in flight on a wire, the oldest first.
#[derive(Debug, Drop)]
pub struct Queue {
    messages: VecDeque<Message>,
}

impl Model for Queue {
    ghost use Rattle.std.specs.VecDeque.{deque_capacity};
    ghost use Rattle.dsm_model.specs.Queues.{Held};

    ghost Value = { Held };

    ghost view = { λ q. record { messages = q.messages.items; room = deque_capacity q.messages } };
}

/// Makes room for as many items more.
fn reserve<T: Drop>(items: &mut VecDeque<T>, count: usize) -> Result<(), Memory>
    ensures items { items.new.items ≡ items.old.items }
    ensures more { deque_capacity items.old ≤ deque_capacity items.new }
    ensures ok { OnOk result (length items.new.items + count ≤ deque_capacity items.new) }
{
    items.reserve(count)?;
    Ok(())
}

impl Queue {
    pub fn new(alloc: Global) -> Self
        ensures { result.messages ≡ [] }
    {
        Queue {
            messages: VecDeque::new(alloc),
        }
    }

    pub fn len(&self) -> usize
        ensures { result ≡ length self.now.messages }
    {
        self.messages.len()
    }

    /// The message at a place, None past the last.
    pub fn get(&self, at: usize) -> Option<&Message>
        ensures { option_copied result ≡ slice_get self.now.messages at }
    {
        self.messages.get(at)
    }

    /// Makes room for as many messages more.
    pub fn reserve(&mut self, count: usize) -> Result<(), Memory>
        ensures same { self.new.messages ≡ self.old.messages }
        ensures more { self.old.room ≤ self.new.room }
        ensures ok { OnOk result (length self.new.messages + count ≤ self.new.room) }
    {
        reserve(&mut self.messages, count)
    }

    /// Puts a message, for which there is room, behind the others.
    pub fn push(&mut self, message: Message)
        requires { length self.old.messages < self.old.room }
        ensures messages { self.new.messages ≡ self.old.messages ++ message ∷ [] }
        ensures room { self.new.room ≡ self.old.room }
    {
        let _parts = (message.args[0], message.payload);
        self.messages.push_back_reserved(message);
    }

    /// Takes the oldest message.
    pub fn pop(&mut self) -> Option<Message>
        ensures front { result ≡ slice_get self.old.messages 0 }
        ensures rest { self.old.messages ≡ option_to_list result ++ self.new.messages }
        ensures room { self.new.room ≡ self.old.room }
    {
        self.messages.pop_front()
    }
}
