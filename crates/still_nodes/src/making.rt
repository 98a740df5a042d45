ghost use Rattle.std.specs.Prelude.{◌≡◌, ◌<◌, true, length, OnErr, OnOk};
ghost use Rattle.node_meaning.specs.Nodes.{test_of};
ghost use Rattle.still_meaning.specs.Laws.{node_of};
ghost use Rattle.still_meaning.specs.Stills.{IsSpread, Passes};
ghost use Rattle.still_nodes.specs.Making.{Acts, IsWithin, Made, MadeAtMost, MakesRoom, MayMake, NodeActs, NodeMakes};
ghost use Rattle.still_nodes.specs.Making.{RefillsAfter};
ghost use Rattle.still_nodes.specs.Telling.{Tells};

use crate::still::Still;
use crate::taken::TakenEntries;
use event_masks::EventWords;
use node_core::Node;
use tw_base::{Event, Memory, NodeId};

/// The node that makes an event.
fn node_of(event: &Event) -> NodeId
    ensures { result ≡ node_of event.now }
{
    match event {
        Event::Instr(node) => *node,
        Event::Redeliver(node) => *node,
        Event::Deliver { at, .. } => *at,
    }
}

/// Takes the memory of one event of a node and of its entry.
fn make_room(node: &mut Node<'_>, taken: &mut TakenEntries) -> Result<(), Memory>
    ensures node { MakesRoom node.old node.new }
    ensures same { taken.new.list ≡ taken.old.list }
    ensures ready { OnOk result (node.new.ready ≡ true) }
    ensures room { OnOk result (length taken.new.list < taken.new.room) }
{
    taken.reserve()?;
    node.ready()
}

/// Makes an event of a node, whose test is true and for which there is memory.
fn make_at(node: &mut Node<'_>, event: &Event)
    requires me { node_of event.now ≡ node.old.me }
    requires within { IsWithin node.old.setup.shape.nodes event.now }
    requires may { test_of node.old event.now ≡ true }
    requires ready { node.old.ready ≡ true }
    ensures { NodeMakes node.old node.new event.now }
{
    match event {
        Event::Instr(_) => node.instr(),
        Event::Redeliver(_) => node.redeliver(),
        Event::Deliver { from, chan, .. } => node.deliver(*from, *chan),
    }
}

/// Takes the memory of an event of a node, whose test is true, and makes it. Its entry goes behind the others.
fn act_at(node: &mut Node<'_>, taken: &mut TakenEntries, event: &Event) -> Result<(), Memory>
    requires me { node_of event.now ≡ node.old.me }
    requires within { IsWithin node.old.setup.shape.nodes event.now }
    requires may { test_of node.old event.now ≡ true }
    ensures acts { OnOk result (NodeActs node.old node.new taken.old.list taken.new.list event.now) }
    ensures room { OnErr result (MakesRoom node.old node.new) }
    ensures same { OnErr result (taken.new.list ≡ taken.old.list) }
{
    make_room(node, taken)?;
    make_at(node, event);
    let entry = node.last_entry().unwrap();
    taken.push(entry);
    Ok(())
}

impl<'a> Still<'a> {
    /// Makes an event whose test is true. What it sent waits at its node.
    fn act(&mut self, event: &Event) -> Result<(), Memory>
        requires { MayMake self.old event.now }
        ensures acts { OnOk result (Acts self.old self.new event.now) }
        ensures err { OnErr result (Passes self.old self.new) }
    {
        let at = usize::from(node_of(event).get());
        act_at(&mut self.nodes[at], &mut self.taken, event)
    }

    /// After a delivery its node keeps the next message of the wire, if there is one.
    fn refill_after(&mut self, event: &Event)
        requires { IsWithin self.old.setup.shape.nodes event.now }
        ensures { RefillsAfter self.old self.new event.now }
    {
        if let Event::Deliver { at, from, chan } = event {
            self.refill(*at, *from, *chan);
        }
    }

    /// Makes an event whose test is true, and hands out what it sent. After an Err the event may have been made.
    pub(crate) fn make(&mut self, event: Event, words: &mut EventWords) -> Result<(), Memory>
        requires may { MayMake self.old event }
        requires spread { IsSpread self.old }
        requires told { Tells self.old words.old }
        ensures made { OnOk result (Made self.old self.new event) }
        ensures spread { OnOk result (IsSpread self.new) }
        ensures told { OnOk result (Tells self.new words.new) }
        ensures err { OnErr result (MadeAtMost self.old self.new event) }
    {
        let node = node_of(&event);
        self.act(&event)?;
        self.refill_after(&event);
        self.spread(node, words)?;
        self.tell(node, words);
        Ok(())
    }
}
