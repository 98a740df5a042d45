ghost use Rattle.std.specs.Prelude.{◌≡◌, [], ◌∷◌, ◌++◌, ◌<◌, ◌≤◌, length, IfOk};

use std::alloc::Global;
use std::marker::Model;
use tw_base::{Data, Memory, Message, Value};

/// The messages that a run sent and that are on no wire yet, and room for 288, as many as a handler sends at most.
#[derive(Drop)]
pub(crate) struct Unsent {
    messages: Vec<Message>,
}

impl Model for Unsent {
    ghost use Rattle.std.specs.Prelude.{vec_capacity, ◌≤◌};
    ghost use Rattle.handler_vm.specs.Sending.{Sends};

    ghost Value = { Sends };

    ghost view = { λ u. record { sent = u.messages.items; room = vec_capacity u.messages } };

    ghost invariant = { λ u. 288 ≤ vec_capacity u.messages };
}

impl Unsent {
    pub(crate) fn new(alloc: Global) -> Result<Unsent, Memory>
        ensures { IfOk result (λ u. u.sent ≡ []) }
    {
        let messages = Vec::with_capacity(alloc, 288)?;
        Ok(Unsent { messages })
    }

    pub(crate) fn messages(&self) -> &[Message]
        ensures { result.now ≡ self.now.sent }
    {
        self.messages.as_slice()
    }

    pub(crate) fn clear(&mut self)
        ensures cleared { self.new ≡ record { sent = []; room = self.old.room } }
        ensures roomy { 288 ≤ self.new.room }
    {
        self.messages.clear();
    }

    pub(crate) fn push(&mut self, m: Message)
        requires { length self.old.sent < self.old.room }
        ensures { self.new ≡ record { sent = self.old.sent ++ m ∷ []; room = self.old.room } }
    {
        let _value: Option<Value> = None;
        let _data: Option<Data> = None;
        self.messages.push_reserved(m);
    }
}
