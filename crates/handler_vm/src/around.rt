ghost use Rattle.std.specs.Prelude.{◌≡◌, [], IfOk, IsOk};

use crate::running::Running;
use crate::unsent::Unsent;
use std::alloc::Global;
use std::marker::Model;
use tw_base::{Memory, Message};

/// What runs of handlers need: room for 288 messages, as many as a handler sends at most, and the run itself, which stays
/// where it is from message to message.
#[derive(Drop)]
pub struct Around {
    pub(crate) unsent: Unsent,
    pub(crate) run: Running,
}

impl Model for Around {
    ghost use Rattle.handler_vm.specs.Sending.{Sends};

    ghost Value = { Sends };

    ghost view = { λ a. a.unsent };
}

impl Around {
    pub fn new(alloc: Global) -> Result<Around, Memory>
        ensures { IfOk result (λ a. a.sent ≡ []) }
    {
        let unsent = Unsent::new(alloc)?;
        Ok(Around {
            unsent,
            run: Running::idle(),
        })
    }

    /// Forgets the messages that were sent. It takes no memory, and cannot fail.
    pub fn ready(&mut self) -> Result<(), Memory>
        ensures ok { IsOk result }
        ensures cleared { self.new ≡ record { sent = []; room = self.old.room } }
    {
        self.unsent.clear();
        Ok(())
    }

    /// What was sent, in order.
    pub fn sends(&self) -> &[Message]
        ensures { result.now ≡ self.now.sent }
    {
        self.unsent.messages()
    }
}
