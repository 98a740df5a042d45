ghost use Rattle.std.specs.Prelude.{ℕ, ◌≡◌, ◌+◌, ◌-◌, ◌*◌, ◌<◌, ◌^◌, ◌&&◌, ◌++◌, [], not, is_some, true, None, Some, length};
ghost use Rattle.std.specs.Prelude.{slice_get, slice_set, option_to_list, IfOk, IfSome, OnErr, OnOk};
ghost use Rattle.std.specs.Option.{option_copied};
ghost use Rattle.tw_base.specs.declared.entry.Event.TheVariants as event;
ghost use Rattle.tw_base.specs.declared.message.Chan.{Chan};
ghost use Rattle.compiled_meaning.specs.Whole.{IsCode};
ghost use Rattle.dsm_runs.specs.Messages.{place};
ghost use Rattle.dsm_runs.specs.Replays.{begin};
ghost use Rattle.dsm_runs.specs.Tests.{has_eligible, may_handle};
ghost use Rattle.node_meaning.specs.Nodes.{accepted_at, front_at, node_tests, test_of, tested};
ghost use Rattle.node_meaning.specs.Stands.{IsFit, IsReplayed, IsWell, Makes, StandsAsBefore, StandsFor};
ghost use Rattle.node_parts.specs.Truths.{truths};

use crate::instruct::instruct;
use crate::room::make_room;
use crate::start::start;
use crate::state::State;
use crate::take::{deliver, redeliver};
use crate::tests::{all_tests, may_deliver, may_instruct, may_redeliver, takes_messages};
use block_tags::Blocks;
use cont_store::Conts;
use dsm_runs::{Mode, Setup};
use handler_code::Code;
use handler_vm::Cell;
use mini_asm::Cpu;
use std::alloc::Global;
use std::marker::Model;
use tw_base::{BlockId, Chan, End, Entry, Listed, Memory, Message, NodeId};

/// A node that runs its program guarded and its protocol's handlers compiled.
#[derive(Drop)]
pub struct Node<'a> {
    setup: &'a Setup,
    code: &'a Code,
    me: NodeId,
    state: State,
}

impl<'a> Model for Node<'a> {
    ghost use Rattle.std.specs.Coded.{codes};
    ghost use Rattle.teapot_tree.specs.contracts.expr.Expr as expr;
    ghost use Rattle.teapot_tree.specs.contracts.stmt.Do as statement;
    ghost use Rattle.node_meaning.specs.Nodes.{Shown};
    ghost use Rattle.node_core.specs.States.{IsNode, shown_of};

    ghost Value = { Shown };

    ghost coded = { Prim.hlevel (codes, expr.the_row.coded, statement.the_row.coded) };

    ghost view = { λ n. shown_of n.setup.now n.code.now n.me n.state };

    ghost invariant = { λ n. IsNode n.setup.now n.code.now n.me n.state };
}

/// How many messages a node handled, for which 32 bits are enough.
fn handled_of(state: &State) -> u32
    ensures value { result ≡ state.now.handled }
    ensures few { result < 2 ^ 32 }
{
    state.handled
}

impl<'a> Node<'a> {
    /// A node at the start of its program. It waits for nothing, and stands for the begin of its course.
    pub fn new(alloc: Global, setup: &'a Setup, code: &'a Code, me: NodeId) -> Result<Self, Memory>
        requires code { IsCode setup.now.protocol code.now }
        requires short { length code.now.ops < 2 ^ 22 }
        requires me { me < setup.now.shape.nodes }
        ensures setup { IfOk result (λ n. n.setup ≡ setup.now) }
        ensures code { IfOk result (λ n. n.code ≡ code.now) }
        ensures me { IfOk result (λ n. n.me ≡ me) }
        ensures log { IfOk result (λ n. n.log ≡ []) }
        ensures waiting { IfOk result (λ n. n.waiting ≡ []) }
        ensures fronts { IfOk result (λ n. (f : ℕ) (ch : Chan) → front_at n f ch ≡ None) }
        ensures stands { IfOk result (λ n. StandsFor n (begin setup.now me)) }
    {
        let state = start(alloc, setup, code, me)?;
        Ok(Node {
            setup,
            code,
            me,
            state,
        })
    }

    /// Takes the memory of one event. After an Err the node is as before, but may have more room.
    pub fn ready(&mut self) -> Result<(), Memory>
        ensures ok { OnOk result (self.new.ready ≡ true) }
        ensures same { self.new ≡ record self.old {
          ready = self.new.ready;
          conts = record self.old.conts { spare = self.new.conts.spare };
        } }
        ensures err { OnErr result (self.new.ready ≡ self.old.ready) }
        ensures stands { StandsAsBefore self.old self.new }
    {
        if self.state.ready {
            return Ok(());
        }
        make_room(&mut self.state)
    }

    /// Whether the node may make its instruction event.
    pub fn enabled_instr(&self) -> bool
        ensures { result ≡ test_of self.now (event.Instr self.now.me) }
    {
        may_instruct(self.setup, &self.state)
    }

    /// Whether the node may redeliver a message that it deferred.
    pub fn enabled_redeliver(&self) -> bool
        ensures { result ≡ test_of self.now (event.Redeliver self.now.me) }
    {
        may_redeliver(self.setup, &self.state)
    }

    /// Whether the node takes messages from wires.
    pub fn takes_messages(&self) -> bool
        ensures { result ≡ (may_handle self.now.setup (tested self.now) && not (has_eligible self.now.parts.deferred)) }
    {
        takes_messages(self.setup, &self.state)
    }

    /// Whether the node keeps the front of the wire from a node.
    pub fn has_front(&self, from: NodeId, chan: Chan) -> bool
        ensures { result ≡ is_some (front_at self.now from chan) }
    {
        self.state.fronts.front(from, chan).is_some()
    }

    /// Whether the node may deliver the front that it keeps of the wire from a node.
    pub fn enabled_deliver(&self, from: NodeId, chan: Chan) -> bool
        ensures { result ≡ test_of self.now (event.Deliver self.now.me from chan) }
    {
        may_deliver(self.setup, &self.state, from, chan)
    }

    /// All tests at once: bit 0 that of the instruction, bit 1 that of the redelivery, bits 2 + 2 f and 3 + 2 f those of
    /// the deliveries from node f on its two wires.
    pub fn tests(&self) -> u32
        ensures tests { truths (2 + 2 * self.now.setup.shape.nodes) result ≡ node_tests self.now }
        ensures small { result < 2 ^ (2 + 2 * self.now.setup.shape.nodes) }
    {
        all_tests(self.setup, &self.state)
    }

    /// How many messages the node accepted from the wire from a node.
    pub fn accepted(&self, from: NodeId, chan: Chan) -> u64
        ensures { result ≡ accepted_at self.now from chan }
    {
        self.state.fronts.accepted(from, chan)
    }

    /// What is fixed in the node's runs.
    pub fn setup(&self) -> &Setup
        ensures { result.now ≡ self.now.setup }
    {
        self.setup
    }

    /// Keeps a message as the front of its wire. It is fit, and the next in number.
    pub fn accept(&mut self, m: Message)
        requires free { front_at self.old m.from m.chan ≡ None }
        requires fit { IsFit self.old.setup m.from self.old.me m }
        requires number { m.number ≡ accepted_at self.old m.from m.chan }
        ensures node { self.new ≡ record self.old {
          fronts = slice_set self.old.fronts (place m.from m.chan) (Some m);
          accepted = slice_set self.old.accepted (place m.from m.chan) (m.number + 1);
        } }
        ensures stands { StandsAsBefore self.old self.new }
    {
        let _handled = handled_of(&self.state);
        self.state.fronts.keep(m);
    }

    /// Makes the instruction event, which is enabled and for which there is memory.
    pub fn instr(&mut self)
        requires enabled { test_of self.old (event.Instr self.old.me) ≡ true }
        requires ready { self.old.ready ≡ true }
        ensures { Makes self.old self.new None (event.Instr self.old.me) }
    {
        instruct(self.setup, self.code, self.me, &mut self.state);
    }

    /// Makes the redelivery, which is enabled and for which there is memory.
    pub fn redeliver(&mut self)
        requires enabled { test_of self.old (event.Redeliver self.old.me) ≡ true }
        requires ready { self.old.ready ≡ true }
        ensures { Makes self.old self.new None (event.Redeliver self.old.me) }
    {
        redeliver(self.setup, self.code, self.me, &mut self.state);
    }

    /// Delivers the front that the node keeps of the wire from a node. The delivery is enabled, and there is memory for it.
    pub fn deliver(&mut self, from: NodeId, chan: Chan)
        requires from { from < self.old.setup.shape.nodes }
        requires enabled { test_of self.old (event.Deliver self.old.me from chan) ≡ true }
        requires ready { self.old.ready ≡ true }
        ensures { Makes self.old self.new (front_at self.old from chan) (event.Deliver self.old.me from chan) }
    {
        deliver(self.setup, self.code, self.me, &mut self.state, from, chan);
    }

    /// The message that has waited longest to be handed out.
    pub fn out_front(&self) -> Option<&Message>
        ensures first { option_copied result ≡ slice_get self.now.waiting 0 }
        ensures fit { IfSome result (λ m. IsFit self.now.setup self.now.me m.now.to m.now) }
    {
        self.state.out.front()
    }

    /// Hands out the message that has waited longest.
    pub fn out_pop(&mut self) -> Option<Message>
        ensures first { result ≡ slice_get self.old.waiting 0 }
        ensures popped { self.old.waiting ≡ option_to_list result ++ self.new.waiting }
        ensures fit { IfSome result (λ m. IsFit self.old.setup self.old.me m.to m) }
        ensures same { self.new ≡ record self.old { waiting = self.new.waiting } }
        ensures stands { StandsAsBefore self.old self.new }
    {
        self.state.out.pop()
    }

    /// The log, whose replay the node stands for.
    pub fn entries(&self) -> &[Entry]
        ensures log { result.now ≡ self.now.log }
        ensures replayed { IsReplayed self.now }
        ensures well { IsWell self.now }
    {
        self.state.log.entries()
    }

    /// The entry of the event that the node made last.
    pub fn last_entry(&self) -> Option<&Entry>
        ensures { option_copied result ≡ slice_get self.now.log (length self.now.log - 1) }
    {
        self.state.log.entries().last()
    }

    /// What the node keeps of a block beside its tag and its words.
    pub fn cell(&self, block: BlockId) -> &Cell
        requires { block < self.now.setup.shape.blocks }
        ensures { slice_get self.now.cells block ≡ Some result.now }
    {
        &self.state.cells[usize::from(block.get())]
    }

    pub fn conts(&self) -> &Conts
        ensures { result.now ≡ self.now.conts }
    {
        &self.state.conts
    }

    pub fn blocks(&self) -> &Blocks
        ensures { result.now ≡ self.now.copies }
    {
        &self.state.blocks
    }

    /// The registers, and the place in the program.
    pub fn cpu(&self) -> Cpu
        ensures { result ≡ self.now.parts.cpu }
    {
        self.state.processor.cpu()
    }

    pub fn mode(&self) -> Mode
        ensures { result ≡ self.now.parts.mode }
    {
        self.state.mode
    }

    pub fn failed(&self) -> Option<End>
        ensures { result ≡ self.now.parts.failed }
    {
        self.state.failed
    }

    pub fn clock(&self) -> u64
        ensures { result ≡ self.now.parts.clock }
    {
        self.state.clock
    }

    pub fn instructions(&self) -> u32
        ensures { result ≡ self.now.parts.instructions }
    {
        self.state.instructions
    }

    pub fn handled(&self) -> u32
        ensures { result ≡ self.now.parts.handled }
    {
        self.state.handled
    }

    pub fn sent(&self) -> u32
        ensures { result ≡ self.now.parts.sent }
    {
        self.state.sent
    }

    pub fn ops(&self) -> u64
        ensures { result ≡ self.now.ops }
    {
        self.state.ops
    }

    pub fn records(&self) -> u32
        ensures { result ≡ self.now.records }
    {
        self.state.records
    }

    /// The log, of a node that is done with.
    pub fn into_log(self) -> Listed<Entry>
        ensures { result ≡ self.entry.log }
    {
        let Node { state, .. } = self;
        let State { log, .. } = state;
        log.into_entries()
    }
}
