ghost use Rattle.std.specs.Prelude.{◌≡◌, ◌<◌, ◌≤◌, ◌+◌, ◌++◌, ◌∷◌, ◌-◌, ◌^◌, [], IfOk, OnOk, length};

use crate::queue::Queue;
use std::alloc::Global;
use tw_base::{Chan, Memory, Message, NodeId};

/// The wires from one node, by receiver and channel, and the number of the next message on each.
#[derive(Debug, Drop)]
pub struct Outbox {
    pub queues: Vec<Queue>,
    pub next: Vec<u64>,
}

fn with_number(message: Message, number: u64) -> Message
    ensures { result ≡ record message { number = number } }
{
    let mut numbered = message;
    numbered.number = number;
    numbered
}

impl Outbox {
    ghost use Rattle.std.specs.Prelude.{ℕ};
    ghost use Rattle.tw_base.specs.declared.message.Chan.{Chan};
    ghost use Rattle.dsm_runs.specs.Messages.{place};
    ghost use Rattle.dsm_model.specs.Views.{HasRoom, queue_of, next_in, room_in};
    ghost use Rattle.dsm_model.specs.Posts.{HasDropped, HasMadeRoom, HasPosted};

    /// Empty wires.
    pub fn new(alloc: Global) -> Result<Self, Memory>
        ensures room { IfOk result HasRoom }
        ensures empty { IfOk result (λ outbox. (t : ℕ) (c : Chan) → queue_of outbox t c ≡ []) }
        ensures first { IfOk result (λ outbox. (t : ℕ) (c : Chan) → next_in outbox t c ≡ 0) }
    {
        let mut queues = Vec::new(alloc);
        for made in 0..16usize {
            queues.push(Queue::new(alloc))?;
        }
        let next = vec![in alloc; 0; 16]?;
        Ok(Outbox { queues, next })
    }

    /// The place of a wire in an outbox.
    fn place(to: NodeId, chan: Chan) -> usize
        ensures place { result ≡ place to chan }
        ensures small { result < 16 }
    {
        match chan {
            Chan::Zero => 2 * usize::from(to.get()),
            Chan::One => 2 * usize::from(to.get()) + 1,
        }
    }

    /// The messages in flight on a wire, the oldest first.
    pub fn queue(&self, to: NodeId, chan: Chan) -> &Queue
        requires { HasRoom self.now }
        ensures { result.now.messages ≡ queue_of self.now to chan }
    {
        &self.queues[Outbox::place(to, chan)]
    }

    /// Takes the oldest message off a wire.
    pub fn take(&mut self, to: NodeId, chan: Chan) -> Option<Message>
        requires { HasRoom self.old }
        ensures { HasDropped self.old self.new to chan result }
    {
        self.queues[Outbox::place(to, chan)].pop()
    }

    /// Makes room for as many messages more on a wire.
    pub fn reserve(&mut self, to: NodeId, chan: Chan, count: usize) -> Result<(), Memory>
        requires { HasRoom self.old }
        ensures same { HasMadeRoom self.old self.new }
        ensures ok { OnOk result (length (queue_of self.new to chan) + count ≤ room_in self.new to chan) }
    {
        self.queues[Outbox::place(to, chan)].reserve(count)
    }

    /// Puts a message, for which there is room, on its wire, with the wire's next number.
    pub fn post(&mut self, message: Message)
        requires room { HasRoom self.old }
        requires place { length (queue_of self.old message.to message.chan) < room_in self.old message.to message.chan }
        requires few { next_in self.old message.to message.chan < 2 ^ 64 - 1 }
        ensures room { HasRoom self.new }
        ensures posted { HasPosted message.from self.old self.new (message ∷ []) }
        ensures rooms { (t : ℕ) (c : Chan) → room_in self.new t c ≡ room_in self.old t c }
    {
        let at = Outbox::place(message.to, message.chan);
        let number = self.next[at];
        let numbered = with_number(message, number);
        self.queues[at].push(numbered);
        self.next[at] = number + 1;
    }
}
