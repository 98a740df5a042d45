ghost use Rattle.std.specs.Prelude.{◌≡◌, ◌≢◌, ◌*◌, ◌^◌, ◌<◌, ◌≤◌, ◌&&◌, ◌+◌, ◌↔◌, [], Ok, IsTrue, false, true, length};
ghost use Rattle.std.specs.Prelude.{replicate, IfOk, MatchBool, OnErr, OnOk};
ghost use Rattle.std.specs.Bool.{OnFalse, OnTrue};
ghost use Rattle.tw_base.specs.declared.entry.Event.TheVariants as event;
ghost use Rattle.compiled_meaning.specs.Whole.{IsCode};
ghost use Rattle.node_meaning.specs.Nodes.{test_of};
ghost use Rattle.tw_wire.specs.Lending.{shown};
ghost use Rattle.tw_wire.specs.Places.{place};
ghost use Rattle.tw_wire.specs.Wires.{AreEndsOf, AreUnused};
ghost use Rattle.seat_meaning.specs.Seats.{IsNext, IsSeated, Seated};
ghost use Rattle.node_seats.specs.Steps.{AreNotLower, HasKept, HasTried};
ghost use Rattle.node_seats.specs.Turns.{Grows, GrowsAtMost, HasPushed, HasServed, is_handling, is_instruction, takes_messages};

use crate::closed::Closed;
use crate::naming::Naming;
use crate::spot::spot;
use dsm_runs::Setup;
use handler_code::Code;
use node_core::Node;
use node_fits::is_fit;
use std::alloc::Global;
use std::marker::{Model, PhantomData};
use std::sync::Wait;
use tw_base::{Chan, Memory, Message, NodeId};
use tw_wire::{Ends, Wires};

/// Node ME of the setup that N names, with the ends of its wires, which are of those that N names.
#[derive(Drop)]
pub struct Seat<'a, N: Naming, const ME: u8> {
    node: Node<'a>,
    ends: Ends,
    closed: Closed,
    // the place of the wire from which the next search for a message begins
    next: u8,
    of: PhantomData<N>,
}

impl<'a, N: Naming, const ME: u8> Model for Seat<'a, N, ME> {
    ghost use Rattle.std.specs.Coded.{codes};
    ghost use Rattle.teapot_tree.specs.contracts.expr.Expr as expr;
    ghost use Rattle.teapot_tree.specs.contracts.stmt.Do as statement;
    ghost use Rattle.tw_wire.specs.Lending.{shown};
    ghost use Rattle.seat_meaning.specs.Seats.{IsSeated, Seated};

    ghost Value = { Seated };

    ghost coded = { Prim.hlevel (codes, expr.the_row.coded, statement.the_row.coded) };

    ghost view = { λ s. record { node = s.node; ends = shown s.ends; closed = s.closed } };

    ghost invariant = { λ s. IsSeated N.setup N.code N.wires ME
        (record { node = s.node; ends = shown s.ends; closed = s.closed }) };
}

/// What a seat was made of, when no thread works for it any more.
#[derive(Drop)]
pub struct Opened<'a> {
    pub node: Node<'a>,
    pub ends: Ends,
    pub closed: Closed,
}

// Whether a message is the next that node `me` may keep of the wire from a node.
fn is_next(node: &Node, me: u8, from: NodeId, chan: Chan, message: &Message) -> bool
    requires { node.now.me ≡ me }
    ensures { IsTrue result ↔ IsNext node.now from chan message.now }
{
    message.from == from
        && message.to.get() == me
        && message.chan == chan
        && message.number == node.accepted(from, chan)
        && is_fit(node.setup(), message.to, message)
}

impl<'a, N: Naming, const ME: u8> Seat<'a, N, ME> {
    /// The node at the start of its program, with the ends of new wires.
    pub fn new(alloc: Global, setup: &'a Setup, code: &'a Code, ends: Ends) -> Result<Self, Memory>
        requires setup { setup.now ≡ N.setup }
        requires code { code.now ≡ N.code }
        requires is_code { IsCode N.setup.protocol N.code }
        requires short { length N.code.ops < 2 ^ 22 }
        requires me { ME < N.setup.shape.nodes }
        requires ends { AreEndsOf N.setup.shape.nodes N.wires ME (shown ends) }
        requires unused { AreUnused (shown ends) }
        ensures log { IfOk result (λ s. s.node.log ≡ []) }
        ensures waiting { IfOk result (λ s. s.node.waiting ≡ []) }
        ensures ends { IfOk result (λ s. s.ends ≡ shown ends) }
        ensures closed { IfOk result (λ s. s.closed ≡ replicate 16 false) }
    {
        let _shape = setup.shape();
        let me = NodeId::new(ME).unwrap();
        let node = Node::new(alloc, setup, code, me)?;
        Ok(Seat {
            node,
            ends,
            closed: Closed::new(),
            next: 0,
            of: PhantomData,
        })
    }

    /// The node.
    pub fn node(&self) -> &Node<'a>
        ensures { result.now ≡ self.now.node }
    {
        &self.node
    }

    // Pushes the message that has waited longest, or finds none.
    fn push_one<R: Wait>(&mut self, rt: &R, wires: &Wires) -> Result<bool, Memory>
        requires { wires.now ≡ N.wires }
        ensures ok { IfOk result (λ some. MatchBool some
            (length self.new.node.waiting < length self.old.node.waiting)
            (self.new.node.waiting ≡ [])) }
        ensures pushed { HasPushed self.old self.new }
    {
        let Some(&message) = self.node.out_front() else {
            return Ok(false);
        };
        let pass = self.ends.send(message.to, message.chan);
        if wires.push(rt, pass, message).is_err() {
            return Err(Memory);
        }
        self.node.out_pop();
        Ok(true)
    }

    /// Pushes all that waits. For want of memory some of it may go on waiting.
    pub fn flush<R: Wait>(&mut self, rt: &R, wires: &Wires) -> Result<(), Memory>
        requires { wires.now ≡ N.wires }
        ensures ok { OnOk result (self.new.node.waiting ≡ []) }
        ensures pushed { HasPushed self.old self.new }
    {
        'out: while self.push_one(rt, wires)? {}
        Ok(())
    }

    // Makes the instruction event, if it is enabled.
    fn one_instr(&mut self) -> Result<bool, Memory>
        ensures ok { IfOk result (λ some. MatchBool some
            (Grows is_instruction self.old.node.log self.new.node.log 1)
            (test_of self.new.node (event.Instr ME) ≡ false)) }
        ensures same { (result ≢ Ok true) → self.new.node.log ≡ self.old.node.log }
    {
        self.node.ready()?;
        if !self.node.enabled_instr() {
            return Ok(false);
        }
        self.node.instr();
        Ok(true)
    }

    /// Makes at most q instruction events, and pushes what was sent. After an Err the events that were made stand, and what
    /// was not pushed goes on waiting.
    pub fn comp<R: Wait>(&mut self, rt: &R, wires: &Wires, q: u32) -> Result<u32, Memory>
        requires { wires.now ≡ N.wires }
        ensures grows { IfOk result (λ k. (k ≤ q) × Grows is_instruction self.old.node.log self.new.node.log k) }
        ensures pushed { OnOk result (self.new.node.waiting ≡ []) }
        ensures fewer { IfOk result (λ k. k < q → test_of self.new.node (event.Instr ME) ≡ false) }
        ensures err { OnErr result (GrowsAtMost is_instruction self.old.node.log self.new.node.log q) }
    {
        self.flush(rt, wires)?;
        for done in 0..q {
            if !self.one_instr()? {
                self.flush(rt, wires)?;
                return Ok(done);
            }
        }
        self.flush(rt, wires)?;
        Ok(q)
    }

    // Takes a message of a wire that is open and of which the node keeps none. One that the node may not keep closes the wire.
    fn fetch<R: Wait>(&mut self, rt: &R, wires: &Wires, from: NodeId, chan: Chan)
        requires wires { wires.now ≡ N.wires }
        requires from { from < N.setup.shape.nodes }
        ensures { HasKept self.old self.new (place from chan) (place from chan + 1) }
    {
        let _log = self.node.entries();
        if self.node.has_front(from, chan) || self.closed.is_closed(from, chan) {
            return;
        }
        let pass = self.ends.recv(from, chan);
        let _looks = pass.looks();
        let Some(message) = wires.pop(rt, pass) else {
            return;
        };
        if is_next(&self.node, ME, from, chan, &message) {
            self.node.accept(message);
        } else {
            self.closed.close(from, chan);
        }
    }

    // Delivers a message of one wire, if there is one.
    fn try_wire<R: Wait>(&mut self, rt: &R, wires: &Wires, from: NodeId, chan: Chan) -> bool
        requires wires { wires.now ≡ N.wires }
        requires from { from < N.setup.shape.nodes }
        requires takes { takes_messages self.old.node ≡ true }
        requires ready { self.old.node.ready ≡ true }
        ensures grows { OnTrue result (Grows is_handling self.old.node.log self.new.node.log 1) }
        ensures tried { OnFalse result (HasTried self.old self.new (place from chan) (place from chan + 1)) }
        ensures looks { AreNotLower self.old self.new }
    {
        self.fetch(rt, wires, from, chan);
        if !self.node.enabled_deliver(from, chan) {
            return false;
        }
        self.node.deliver(from, chan);
        true
    }

    // Delivers a message of one of the wires at places from `low` to `high`, if there is one.
    fn try_wires<R: Wait>(&mut self, rt: &R, wires: &Wires, low: u8, high: u8) -> bool
        requires wires { wires.now ≡ N.wires }
        requires high { high ≤ 2 * N.setup.shape.nodes }
        requires small { high ≤ 16 }
        requires ordered { low ≤ high }
        requires takes { takes_messages self.old.node ≡ true }
        requires ready { self.old.node.ready ≡ true }
        ensures grows { OnTrue result (Grows is_handling self.old.node.log self.new.node.log 1) }
        ensures tried { OnFalse result (HasTried self.old self.new low high) }
        ensures looks { AreNotLower self.old self.new }
    {
        for at in low..high {
            let (from, chan) = spot(at);
            if self.try_wire(rt, wires, from, chan) {
                self.next = at + 1;
                return true;
            }
        }
        false
    }

    // Handles a message, if there is one.
    fn one_handling<R: Wait>(&mut self, rt: &R, wires: &Wires) -> Result<bool, Memory>
        requires { wires.now ≡ N.wires }
        ensures ok { IfOk result (λ some. MatchBool some
            (Grows is_handling self.old.node.log self.new.node.log 1)
            (HasServed self.old self.new)) }
        ensures same { (result ≢ Ok true) → self.new.node.log ≡ self.old.node.log }
        ensures looks { AreNotLower self.old self.new }
    {
        self.node.ready()?;
        if self.node.enabled_redeliver() {
            self.node.redeliver();
            return Ok(true);
        }
        if !self.node.takes_messages() {
            return Ok(false);
        }
        let all = 2 * self.node.setup().shape().nodes();
        let next = self.next.min(all);
        if self.try_wires(rt, wires, next, all) {
            return Ok(true);
        }
        Ok(self.try_wires(rt, wires, 0, next))
    }

    /// Handles at most q messages, those first that are to be redelivered, and pushes what was sent. After an Err the events
    /// that were made stand, and what was not pushed goes on waiting.
    pub fn serve<R: Wait>(&mut self, rt: &R, wires: &Wires, q: u32) -> Result<u32, Memory>
        requires { wires.now ≡ N.wires }
        ensures grows { IfOk result (λ k. (k ≤ q) × Grows is_handling self.old.node.log self.new.node.log k) }
        ensures pushed { OnOk result (self.new.node.waiting ≡ []) }
        ensures fewer { IfOk result (λ k. k < q → HasServed self.old self.new) }
        ensures err { OnErr result (GrowsAtMost is_handling self.old.node.log self.new.node.log q) }
    {
        self.flush(rt, wires)?;
        for done in 0..q {
            if !self.one_handling(rt, wires)? {
                self.flush(rt, wires)?;
                return Ok(done);
            }
        }
        self.flush(rt, wires)?;
        Ok(q)
    }

    /// The seat's own node, with the ends of its wires.
    pub fn open(self) -> Opened<'a>
        ensures same { let parts : Seated = record { node = result.node; ends = shown result.ends; closed = result.closed } in
            parts ≡ self.entry }
        ensures seated { IsSeated N.setup N.code N.wires ME
            (record { node = result.node; ends = shown result.ends; closed = result.closed }) }
    {
        let Seat {
            node,
            ends,
            closed,
            next: _,
            of: _,
        } = self;
        Opened { node, ends, closed }
    }
}
