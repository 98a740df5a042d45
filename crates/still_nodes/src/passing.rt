ghost use Rattle.std.specs.Prelude.{◌≡◌, ◌<◌, [], IfOk, OnErr, OnOk};
ghost use Rattle.still_meaning.specs.Stills.{IsSpread, Passes};
ghost use Rattle.still_nodes.specs.Handing.{HandsOut, IsSpreadBut, LeavesOthers, OneOf, RefillsAll, RefillsTo, Refills, waits_at};
ghost use Rattle.still_nodes.specs.Telling.{TellsBut};

use crate::handing::{accept, first_out, hand_over, is_clear, put_behind, take_first, take_next};
use crate::still::Still;
use event_masks::EventWords;
use tw_base::{Chan, Memory, NodeId};

impl<'a> Still<'a> {
    /// Lets a node keep what follows first on a wire to it, where it keeps no message of that wire.
    pub(crate) fn refill(&mut self, to: NodeId, from: NodeId, chan: Chan)
        requires to { to < self.old.setup.shape.nodes }
        requires from { from < self.old.setup.shape.nodes }
        ensures { Refills self.old self.new from to chan }
    {
        if self.nodes[usize::from(to.get())].has_front(from, chan) {
            return;
        }
        if let Some(message) = take_next(&mut self.rows, from, to, chan) {
            accept(&mut self.nodes, message);
        }
    }

    /// Hands out the message that has waited longest at a node, and says to whom it is to go. Its receiver keeps it where
    /// nothing of the wire is on its way to it, and else it is put behind what is. After an Err all is as before.
    fn hand_out(&mut self, node: NodeId) -> Result<Option<NodeId>, Memory>
        requires { node < self.old.setup.shape.nodes }
        ensures passes { Passes self.old self.new }
        ensures others { LeavesOthers self.old self.new node }
        ensures out { IfOk result (HandsOut self.old self.new node) }
        ensures err { OnErr result (self.new ≡ self.old) }
    {
        let Some(message) = first_out(&self.nodes, node) else {
            return Ok(None);
        };
        let to = message.to;
        if is_clear(&self.nodes, &self.rows, node, to, message.chan) {
            hand_over(&mut self.nodes, node);
        } else {
            put_behind(&mut self.rows, *message)?;
            take_first(&mut self.nodes, node);
        }
        Ok(Some(to))
    }

    /// Hands out the message that has waited longest at a node. Its receiver keeps it where nothing of the wire is on its way
    /// to it, and else it is put behind what is. True where there was one. After an Err all is as before.
    pub(crate) fn hand_one(&mut self, node: NodeId, words: &mut EventWords) -> Result<bool, Memory>
        requires node { node < self.old.setup.shape.nodes }
        requires told { TellsBut self.old node words.old }
        ensures told { TellsBut self.new node words.new }
        ensures passes { Passes self.old self.new }
        ensures others { LeavesOthers self.old self.new node }
        ensures one { IfOk result (λ more. OneOf more (waits_at self.old node) (waits_at self.new node)) }
        ensures err { OnErr result (self.new ≡ self.old) }
    {
        let Some(to) = self.hand_out(node)? else {
            return Ok(false);
        };
        words.set(to, self.tests_of(to));
        Ok(true)
    }

    /// Hands out all that waits at a node.
    pub(crate) fn spread(&mut self, node: NodeId, words: &mut EventWords) -> Result<(), Memory>
        requires node { node < self.old.setup.shape.nodes }
        requires told { TellsBut self.old node words.old }
        ensures told { TellsBut self.new node words.new }
        ensures passes { Passes self.old self.new }
        ensures others { LeavesOthers self.old self.new node }
        ensures out { OnOk result (waits_at self.new node ≡ []) }
        ensures spread { IsSpreadBut self.old node → OnOk result (IsSpread self.new) }
    {
        while self.hand_one(node, words)? {}
        Ok(())
    }

    /// Hands out all that waits at a node, where no words tell the tests.
    fn hand_out_all(&mut self, node: NodeId) -> Result<(), Memory>
        requires { node < self.old.setup.shape.nodes }
        ensures passes { Passes self.old self.new }
        ensures others { LeavesOthers self.old self.new node }
        ensures out { OnOk result (waits_at self.new node ≡ []) }
    {
        while self.hand_out(node)?.is_some() {}
        Ok(())
    }

    /// Lets a node keep what follows first on each wire to it of which it keeps no message.
    fn refill_node(&mut self, to: NodeId)
        requires { to < self.old.setup.shape.nodes }
        ensures { RefillsTo self.old self.new to }
    {
        for number in 0..self.setup.shape().nodes() {
            let from = NodeId::new(number).unwrap();
            self.refill(to, from, Chan::Zero);
            self.refill(to, from, Chan::One);
        }
    }

    /// Lets each node keep what follows first on each wire to it of which it keeps no message.
    fn refill_all(&mut self)
        ensures { RefillsAll self.old self.new }
    {
        for number in 0..self.setup.shape().nodes() {
            let to = NodeId::new(number).unwrap();
            self.refill_node(to);
        }
    }

    /// Hands out all that waits at any node: then nothing waits at a sender.
    pub(crate) fn spread_all(&mut self) -> Result<(), Memory>
        ensures passes { Passes self.old self.new }
        ensures spread { OnOk result (IsSpread self.new) }
    {
        self.refill_all();
        for number in 0..self.setup.shape().nodes() {
            let node = NodeId::new(number).unwrap();
            self.hand_out_all(node)?;
        }
        Ok(())
    }
}
