ghost use Rattle.std.specs.Prelude.{◌≡◌, ◌<◌, ◌≤◌, ◌+◌, ◌-◌, ◌^◌, ◌∷◌, [], ℕ, length, OnOk, slice_get};
ghost use Rattle.std.specs.List.{list_all};
ghost use Rattle.std.specs.Option.{option_copied};
ghost use Rattle.tw_base.specs.Lists.{Each};
ghost use Rattle.tw_base.specs.declared.message.Chan.{Chan};
ghost use Rattle.dsm_model.specs.Posts.{CanSend, HasSent, HasTaken, HaveMadeRoom};
ghost use Rattle.dsm_model.specs.Views.{AllRoom, nexts_of, rooms_of, wires_of};

use crate::outbox::Outbox;
use crate::queue::Queue;
use tw_base::{Chan, Memory, Message, NodeId};

/// The messages on a wire.
pub fn wire(outboxes: &[Outbox], from: NodeId, to: NodeId, chan: Chan) -> &Queue
    requires from { from < length outboxes.now }
    requires room { AllRoom outboxes.now }
    ensures { result.now.messages ≡ wires_of outboxes.now from to chan }
{
    outboxes[usize::from(from.get())].queue(to, chan)
}

/// Takes the oldest message off a wire.
pub fn take(outboxes: &mut [Outbox], from: NodeId, to: NodeId, chan: Chan) -> Option<Message>
    requires from { from < length outboxes.old }
    requires room { AllRoom outboxes.old }
    ensures { HasTaken outboxes.old outboxes.new from to chan result }
{
    outboxes[usize::from(from.get())].take(to, chan)
}

/// Makes room for as many messages more on the wire of a message.
fn reserve(outboxes: &mut [Outbox], message: &Message, count: usize) -> Result<(), Memory>
    requires from { message.now.from < length outboxes.old }
    requires room { AllRoom outboxes.old }
    ensures same { HaveMadeRoom outboxes.old outboxes.new }
    ensures ok { OnOk result (length (wires_of outboxes.new message.now.from message.now.to message.now.chan) + count
        ≤ rooms_of outboxes.new message.now.from message.now.to message.now.chan) }
{
    outboxes[usize::from(message.from.get())].reserve(message.to, message.chan, count)
}

/// Makes room for messages on their wires.
pub fn reserve_all(outboxes: &mut [Outbox], sends: &[Message]) -> Result<(), Memory>
    requires from { Each (λ m. m.from < length outboxes.old) sends.now }
    requires room { AllRoom outboxes.old }
    ensures same { HaveMadeRoom outboxes.old outboxes.new }
    ensures ok { OnOk result (CanSend outboxes.new sends.now) }
{
    for message in sends {
        reserve(outboxes, message, sends.len())?;
    }
    Ok(())
}

/// Puts a message, for which there is room, on its wire.
fn send(outboxes: &mut [Outbox], message: Message)
    requires from { message.from < length outboxes.old }
    requires room { AllRoom outboxes.old }
    requires place { length (wires_of outboxes.old message.from message.to message.chan) < rooms_of outboxes.old message.from
        message.to message.chan }
    requires few { nexts_of outboxes.old message.from message.to message.chan < 2 ^ 64 - 1 }
    ensures sent { HasSent outboxes.old outboxes.new (message ∷ []) }
    ensures rooms { (f t : ℕ) (c : Chan) → rooms_of outboxes.new f t c ≡ rooms_of outboxes.old f t c }
{
    outboxes[usize::from(message.from.get())].post(message)
}

/// Puts messages, for which there is room, on their wires.
pub fn send_all(outboxes: &mut [Outbox], sends: &[Message])
    requires from { Each (λ m. m.from < length outboxes.old) sends.now }
    requires room { AllRoom outboxes.old }
    requires places { CanSend outboxes.old sends.now }
    requires few { (f t : ℕ) (c : Chan) → nexts_of outboxes.old f t c + length sends.now < 2 ^ 64 }
    ensures { HasSent outboxes.old outboxes.new sends.now }
{
    for message in sends {
        send(outboxes, *message);
    }
}
