ghost use Rattle.std.specs.Prelude.{◌≡◌, [], ◌∷◌, ◌++◌, ◌+◌, ◌<◌, ◌≤◌, drop, length, map, reverse, slice_get, take};
ghost use Rattle.teapot_meaning.specs.Depth.{nodes_in};
ghost use Rattle.teapot_meaning.specs.Steps.{node_of, out_to, payload_of, set_of};
ghost use Rattle.handler_code.specs.Machine.{below, message_arity, top};
ghost use Rattle.handler_vm.specs.Inside.{HasFew, StaysUnsent};
ghost use Rattle.handler_vm.specs.Sending.{IsUnsent, addressed, chan_in, out_of};

use crate::running::Running;
use crate::sets::node;
use crate::unsent::Unsent;
use crate::values::Args;
use teapot_meaning::{node as node_in, set_of};
use teapot_tree::Protocol;
use tw_base::{Chan, Data, Kind, Message, NodeId, NodeSet};

/// How many arguments a message has.
fn message_arity(p: &Protocol, number: u8) -> usize
    requires { number < length p.now.messages }
    ensures { result ≡ message_arity (slice_get p.now.messages number) }
{
    p.messages.items()[usize::from(number)].args.len()
}

fn chan(p: &Protocol, number: u8) -> Chan
    requires { number < length p.now.messages }
    ensures { result ≡ chan_in (slice_get p.now.messages number) }
{
    p.messages.items()[usize::from(number)].chan
}

/// The data of a message: the words, where it carries them.
#[tactic(auto, unfolding(teapot_meaning::specs::Steps::payload_of))]
fn payload(p: &Protocol, number: u8, words: &Data) -> Option<Data>
    requires { number < length p.now.messages }
    ensures { result ≡ payload_of (slice_get p.now.messages number) words.now }
{
    if p.messages.items()[usize::from(number)].carries {
        Some(*words)
    } else {
        None
    }
}

/// The same message to another node.
fn addressed(m: &Message, to: NodeId) -> Message
    ensures { result ≡ addressed m.now to }
{
    let mut sent = *m;
    sent.to = to;
    sent
}

/// Sends the message to each node of a set, in rising order.
fn send_each(set: NodeSet, m: &Message, unsent: &mut Unsent)
    requires { length unsent.old.sent + length (nodes_in set) ≤ unsent.old.room }
    ensures { unsent.new ≡ record { sent = unsent.old.sent ++ map (addressed m.now) (nodes_in set); room = unsent.old.room } }
{
    for k in 0..8 {
        let to = node(k);
        if set.has(to) {
            unsent.push(addressed(m, to));
        }
    }
}

impl Running {
    /// A message of this node for this block, that is not on its wire yet.
    fn message(
        &self,
        p: &Protocol,
        to: NodeId,
        number: u8,
        args: &Args,
        payload: &Option<Data>,
    ) -> Message
        requires { number < length p.now.messages }
        ensures out { out_of result ≡ out_to number args.now payload.now to }
        ensures unsent { IsUnsent p.now self.now.me self.now.block result }
    {
        let places = args.places();
        Message {
            kind: Kind::Named(number),
            block: self.block,
            from: self.me,
            to,
            chan: chan(p, number),
            number: 0,
            stamp: 0,
            args: places,
            arg_count: args.len(),
            payload: *payload,
        }
    }

    /// Sends to the node below the arguments on the stack.
    pub(crate) fn send(&mut self, p: &Protocol, number: u8, unsent: &mut Unsent)
        requires few { HasFew p.now }
        requires declared { number < length p.now.messages }
        requires enough { message_arity (slice_get p.now.messages number) + 1 ≤ length self.old.stack }
        requires room { length unsent.old.sent < unsent.old.room }
        ensures stack { let count = message_arity (slice_get p.now.messages number)
            in self.new ≡ record self.old { stack = below (drop count self.old.stack) } }
        ensures sent { let count = message_arity (slice_get p.now.messages number) in
            let payload = payload_of (slice_get p.now.messages number) self.old.words
            in map out_of unsent.new.sent ≡ map out_of unsent.old.sent
            ++ out_to number (reverse (take count self.old.stack)) payload
            (node_of (top (drop count self.old.stack))) ∷ [] }
        ensures unsent { StaysUnsent p.now self.old unsent.old unsent.new }
        ensures room { unsent.new.room ≡ unsent.old.room }
    {
        let args = self.take(message_arity(p, number));
        let to = node_in(self.pop());
        let payload = payload(p, number, &self.words);
        unsent.push(self.message(p, to, number, &args, &payload));
    }

    /// Sends to each node of the set below the arguments on the stack.
    pub(crate) fn send_all(&mut self, p: &Protocol, number: u8, unsent: &mut Unsent)
        requires few { HasFew p.now }
        requires declared { number < length p.now.messages }
        requires enough { message_arity (slice_get p.now.messages number) + 1 ≤ length self.old.stack }
        requires room { let count = message_arity (slice_get p.now.messages number)
            in length unsent.old.sent + length (nodes_in (set_of (top (drop count self.old.stack)))) ≤ unsent.old.room }
        ensures stack { let count = message_arity (slice_get p.now.messages number)
            in self.new ≡ record self.old { stack = below (drop count self.old.stack) } }
        ensures sent { let count = message_arity (slice_get p.now.messages number) in
            let payload = payload_of (slice_get p.now.messages number) self.old.words
            in map out_of unsent.new.sent ≡ map out_of unsent.old.sent
            ++ map (out_to number (reverse (take count self.old.stack)) payload)
            (nodes_in (set_of (top (drop count self.old.stack)))) }
        ensures unsent { StaysUnsent p.now self.old unsent.old unsent.new }
        ensures room { unsent.new.room ≡ unsent.old.room }
    {
        let args = self.take(message_arity(p, number));
        let set = set_of(self.pop());
        let payload = payload(p, number, &self.words);
        let first = self.message(p, self.me, number, &args, &payload);
        send_each(set, &first, unsent);
    }
}
