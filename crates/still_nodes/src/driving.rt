ghost use Rattle.std.specs.Prelude.{◌≡◌, ◌↔◌, ℕ, ◌<◌, ◌≤◌, ◌^◌, Some, length, slice_get};
ghost use Rattle.std.specs.Prelude.{IfNone, IfOk, IfSome, IsTrue, MatchBool, OnErr, OnOk};
ghost use Rattle.tw_base.specs.declared.entry.Event.TheVariants as event;
ghost use Rattle.tw_base.specs.declared.entry.Event.{Event};
ghost use Rattle.dsm_runs.specs.Schedules.{chosen, enabled_events};
ghost use Rattle.dsm_runs.specs.Worlds.{World};
ghost use Rattle.still_meaning.specs.Stills.{IsAtRest, IsDisabled, IsSpread, IsStill};
ghost use Rattle.still_nodes.specs.Driving.{Drives, HasFollowed, HasSettled};
ghost use Rattle.still_nodes.specs.Making.{MayMake};
ghost use Rattle.still_nodes.specs.Telling.{Tells};

use crate::Still;
use event_masks::EventWords;
use std::alloc::Global;
use tw_base::{Chan, Event, Memory, NodeId};

impl<'a> Still<'a> {
    fn has_node(&self, node: NodeId) -> bool
        ensures { IsTrue result ↔ (node < self.now.setup.shape.nodes) }
    {
        node.get() < self.setup.shape().nodes()
    }

    /// Whether the instruction of a node is enabled.
    fn may_instruct(&self, node: NodeId) -> bool
        requires { IsSpread self.now }
        ensures { MatchBool result (MayMake self.now (event.Instr node)) (IsDisabled self.now (event.Instr node)) }
    {
        if !self.has_node(node) {
            return false;
        }
        self.node(node).enabled_instr()
    }

    /// Whether the redelivery of a node is enabled.
    fn may_redeliver(&self, node: NodeId) -> bool
        requires { IsSpread self.now }
        ensures { MatchBool result (MayMake self.now (event.Redeliver node)) (IsDisabled self.now (event.Redeliver node)) }
    {
        if !self.has_node(node) {
            return false;
        }
        self.node(node).enabled_redeliver()
    }

    /// Whether a delivery is enabled.
    fn may_deliver(&self, at: NodeId, from: NodeId, chan: Chan) -> bool
        requires { IsSpread self.now }
        ensures { let delivery = event.Deliver at from chan in
            MatchBool result (MayMake self.now delivery) (IsDisabled self.now delivery) }
    {
        if !self.has_node(at) || !self.has_node(from) {
            return false;
        }
        self.node(at).enabled_deliver(from, chan)
    }

    /// Whether an event is enabled.
    fn may_make(&self, event: Event) -> bool
        requires { IsSpread self.now }
        ensures { MatchBool result (MayMake self.now event) (IsDisabled self.now event) }
    {
        match event {
            Event::Instr(node) => self.may_instruct(node),
            Event::Redeliver(node) => self.may_redeliver(node),
            Event::Deliver { at, from, chan } => self.may_deliver(at, from, chan),
        }
    }

    /// Makes these events in their order up to the first that is not enabled, and answers how many. After an Err those that
    /// were made stand.
    fn make_all(&mut self, events: &[Event], words: &mut EventWords) -> Result<u32, Memory>
        requires few { length events.now < 2 ^ 32 }
        requires spread { IsSpread self.old }
        requires told { Tells self.old words.old }
        ensures made { IfOk result (λ k. Drives self.old self.new events.now k) }
        ensures within { IfOk result (λ k. k ≤ length events.now) }
        ensures stopped { IfOk result (λ k. (e : Event) → slice_get events.now k ≡ Some e → IsDisabled self.new e) }
        ensures err { OnErr result ((k : ℕ) × Drives self.old self.new events.now k) }
    {
        let mut count = 0;
        for event in events {
            if !self.may_make(*event) {
                return Ok(count);
            }
            self.make(*event, words)?;
            count += 1;
        }
        Ok(count)
    }

    /// Makes these events in their order up to the first that is not enabled, and answers how many. After an Err those that
    /// were made stand.
    pub fn drive(&mut self, alloc: Global, events: &[Event]) -> Result<u32, Memory>
        requires few { length events.now < 2 ^ 32 }
        ensures made { IfOk result (λ k. Drives self.old self.new events.now k) }
        ensures within { IfOk result (λ k. k ≤ length events.now) }
        ensures stopped { IfOk result (λ k. (e : Event) → slice_get events.now k ≡ Some e → IsDisabled self.new e) }
        ensures err { OnErr result ((k : ℕ) × Drives self.old self.new events.now k) }
    {
        self.spread_all()?;
        let mut words = self.words(alloc)?;
        self.make_all(events, &mut words)
    }

    /// The event that a schedule takes next, where `turn` events were taken before. None exactly where none is enabled.
    fn next_event(&self, words: &EventWords, turn: u32, stride: u32) -> Option<Event>
        requires spread { IsSpread self.now }
        requires told { Tells self.now words.now }
        ensures chosen { (h : World) → IsStill self.now h → result ≡ chosen stride turn (enabled_events self.now.setup h) }
        ensures may { IfSome result (MayMake self.now) }
        ensures rest { IfNone result (IsAtRest self.now) }
    {
        let _shape = self.setup.shape();
        words.choose(turn, stride)
    }

    /// Makes the events of a schedule from its start to its end, where no event is enabled. After an Err those that were made
    /// stand.
    ///
    /// Want of memory is the only error: a run has far fewer than 2^32 events.
    fn follow(&mut self, words: &mut EventWords, stride: u32) -> Result<(), Memory>
        requires spread { IsSpread self.old }
        requires told { Tells self.old words.old }
        ensures settled { OnOk result (HasSettled self.old self.new stride) }
        ensures rest { OnOk result (IsAtRest self.new) }
        ensures err { OnErr result (HasFollowed self.old self.new stride) }
    {
        for turn in 0..u32::MAX {
            let Some(event) = self.next_event(words, turn, stride) else {
                return Ok(());
            };
            self.make(event, words)?;
        }
        Err(Memory)
    }

    /// Makes the events of the serial schedule of a stride, from its start to its end, where no event is enabled. After an Err
    /// those that were made stand.
    pub fn settle(&mut self, alloc: Global, stride: u32) -> Result<(), Memory>
        ensures settled { OnOk result (HasSettled self.old self.new stride) }
        ensures rest { OnOk result (IsAtRest self.new) }
        ensures err { OnErr result (HasFollowed self.old self.new stride) }
    {
        self.spread_all()?;
        let mut words = self.words(alloc)?;
        self.follow(&mut words, stride)
    }
}
