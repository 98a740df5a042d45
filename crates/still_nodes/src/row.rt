ghost use Rattle.std.specs.Prelude.{◌≡◌, ◌≤◌, [], ◌∷◌, ◌++◌, ◌↔◌, IsTrue, IfOk, OnErr, OnOk, length, option_to_list, replicate};
ghost use Rattle.std.specs.Prelude.{slice_get, slice_set};
ghost use Rattle.std.specs.List.{slice_index_or};
ghost use Rattle.dsm_runs.specs.Messages.{place};
ghost use Rattle.still_nodes.specs.Opening.{padded};

use node_parts::place;
use std::alloc::Global;
use std::collections::VecDeque;
use std::marker::Model;
use tw_base::{Chan, Memory, Message, NodeId};

/// Messages of a wire, the oldest first.
#[derive(Drop)]
pub struct Queue {
    messages: VecDeque<Message>,
}

impl Model for Queue {
    ghost use Rattle.std.specs.Prelude.{List};
    ghost use Rattle.std.specs.Coded.{coded_list};
    ghost use Rattle.tw_base.specs.declared.message.Message.{Message};

    ghost Value = { List Message };

    ghost view = { λ q. q.messages.items };
}

impl Queue {
    fn new(alloc: Global) -> Self
        ensures { result ≡ [] }
    {
        Queue {
            messages: VecDeque::new(alloc),
        }
    }

    pub fn of(messages: Vec<Message>) -> Self
        ensures { result ≡ messages.items }
    {
        Queue {
            messages: VecDeque::from_vec(messages),
        }
    }

    fn is_empty(&self) -> bool
        ensures { IsTrue result ↔ (self.now ≡ []) }
    {
        self.messages.is_empty()
    }

    fn push(&mut self, message: Message) -> Result<(), Memory>
        ensures ok { OnOk result (self.new ≡ self.old ++ message ∷ []) }
        ensures err { OnErr result (self.new ≡ self.old) }
    {
        let _parts = (message.args[0], message.payload);
        self.messages.push_back(message)?;
        Ok(())
    }

    fn pop(&mut self) -> Option<Message>
        ensures first { result ≡ slice_get self.old 0 }
        ensures rest { self.old ≡ option_to_list result ++ self.new }
    {
        self.messages.pop_front()
    }
}

/// What follows, on each wire from one node, the message that the receiver keeps: a queue for each of sixteen places.
#[derive(Drop)]
pub struct Row {
    queues: Vec<Queue>,
}

impl Model for Row {
    ghost use Rattle.std.specs.Prelude.{◌≡◌, List, length};
    ghost use Rattle.tw_base.specs.declared.message.Message.{Message};

    ghost Value = { List (List Message) };

    ghost view = { λ r. r.queues.items };

    ghost invariant = { λ r. length r.queues.items ≡ 16 };
}

impl Row {
    /// Nothing follows on any wire.
    pub fn new(alloc: Global) -> Result<Self, Memory>
        ensures { IfOk result (λ r. r ≡ replicate 16 []) }
    {
        let mut queues = Vec::new(alloc);
        for made in 0..16usize {
            queues.push(Queue::new(alloc))?;
        }
        Ok(Row { queues })
    }

    /// These queues by place, and empty ones behind them.
    pub fn padded(alloc: Global, mut queues: Vec<Queue>) -> Result<Self, Memory>
        requires { length queues.items ≤ 16 }
        ensures { IfOk result (λ row. row ≡ padded queues.items) }
    {
        for _ in 0..16 - queues.len() {
            queues.push(Queue::new(alloc))?;
        }
        Ok(Row { queues })
    }

    /// Whether nothing follows on the wire to a node.
    pub fn is_empty(&self, to: NodeId, chan: Chan) -> bool
        ensures { IsTrue result ↔ (slice_index_or self.now (place to chan) [] ≡ []) }
    {
        self.queues[place(to, chan)].is_empty()
    }

    /// Puts a message behind those of its wire. After an Err the row is as before.
    pub fn push(&mut self, message: Message) -> Result<(), Memory>
        ensures ok { OnOk result (self.new ≡ slice_set self.old (place message.to message.chan)
            (slice_index_or self.old (place message.to message.chan) [] ++ message ∷ [])) }
        ensures err { OnErr result (self.new ≡ self.old) }
    {
        self.queues[place(message.to, message.chan)].push(message)
    }

    /// Takes the message of the wire to a node that follows first.
    pub fn pop(&mut self, to: NodeId, chan: Chan) -> Option<Message>
        ensures first { result ≡ slice_get (slice_index_or self.old (place to chan) []) 0 }
        ensures popped { slice_index_or self.old (place to chan) []
            ≡ option_to_list result ++ slice_index_or self.new (place to chan) [] }
        ensures others { self.new ≡ slice_set self.old (place to chan) (slice_index_or self.new (place to chan) []) }
    {
        self.queues[place(to, chan)].pop()
    }
}
