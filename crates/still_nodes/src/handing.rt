ghost use Rattle.std.specs.Prelude.{◌≡◌, ◌≢◌, ◌<◌, ◌++◌, ◌↔◌, [], IfSome, IsTrue, OnErr, OnOk, length, option_to_list, slice_get};
ghost use Rattle.std.specs.Option.{option_copied};
ghost use Rattle.still_meaning.specs.Stills.{front_of};
ghost use Rattle.still_nodes.specs.Handing.{Accepts, HandsOver, IsFirstOut, MayAccept, MayHandOver, Pops, queue_at, waiting_of};
ghost use Rattle.still_nodes.specs.Handing.{with_behind, with_queue};

use crate::row::Row;
use node_core::Node;
use tw_base::{Chan, Memory, Message, NodeId};

/// The message that has waited longest at a node.
pub fn first_out<'n>(nodes: &'n [Node<'_>], node: NodeId) -> Option<&'n Message>
    requires { node < length nodes.now }
    ensures first { option_copied result ≡ slice_get (waiting_of (slice_get nodes.now node)) 0 }
    ensures fit { IfSome result (λ m. IsFirstOut nodes.now node m.now) }
{
    nodes[usize::from(node.get())].out_front()
}

/// Takes the message that has waited longest out of a node where one waits.
pub fn take_first(nodes: &mut [Node<'_>], node: NodeId) -> Message
    requires { waiting_of (slice_get nodes.old node) ≢ [] }
    ensures { Pops nodes.old nodes.new node result }
{
    nodes[usize::from(node.get())].out_pop().unwrap()
}

/// Lets its receiver keep a message.
pub fn accept(nodes: &mut [Node<'_>], message: Message)
    requires { MayAccept nodes.old message }
    ensures { Accepts nodes.old nodes.new message }
{
    let receiver = &mut nodes[usize::from(message.to.get())];
    let _well = receiver.entries();
    receiver.accept(message);
}

/// Takes the message that has waited longest at a node to its receiver.
pub fn hand_over(nodes: &mut [Node<'_>], node: NodeId)
    requires { MayHandOver nodes.old node }
    ensures { HandsOver nodes.old nodes.new node }
{
    let message = take_first(nodes, node);
    accept(nodes, message);
}

/// Whether nothing that was handed over of the wire is on its way.
pub fn is_clear(nodes: &[Node<'_>], rows: &[Row], from: NodeId, to: NodeId, chan: Chan) -> bool
    requires from { from < length rows.now }
    requires to { to < length nodes.now }
    ensures { IsTrue result ↔ (front_of (slice_get nodes.now to) from chan ++ queue_at rows.now from to chan ≡ []) }
{
    !nodes[usize::from(to.get())].has_front(from, chan)
        && rows[usize::from(from.get())].is_empty(to, chan)
}

/// Puts a message behind those of its wire. After an Err the rows are as before.
pub fn put_behind(rows: &mut [Row], message: Message) -> Result<(), Memory>
    requires { message.from < length rows.old }
    ensures ok { OnOk result (rows.new ≡ with_behind rows.old message) }
    ensures err { OnErr result (rows.new ≡ rows.old) }
{
    rows[usize::from(message.from.get())].push(message)
}

/// Takes what follows first on a wire.
pub fn take_next(rows: &mut [Row], from: NodeId, to: NodeId, chan: Chan) -> Option<Message>
    requires { from < length rows.old }
    ensures first { result ≡ slice_get (queue_at rows.old from to chan) 0 }
    ensures popped { queue_at rows.old from to chan ≡ option_to_list result ++ queue_at rows.new from to chan }
    ensures others { rows.new ≡ with_queue rows.old from to chan (queue_at rows.new from to chan) }
{
    rows[usize::from(from.get())].pop(to, chan)
}
