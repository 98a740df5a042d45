ghost use Rattle.std.specs.Prelude.{◌≡◌, ◌<◌, ◌^◌, ℕ, [], length, slice_get, IfOk, OnErr};
ghost use Rattle.std.specs.Option.{option_copied};
ghost use Rattle.tw_base.specs.declared.message.Chan.{Chan};
ghost use Rattle.dsm_runs.specs.Locals.{first};
ghost use Rattle.dsm_model.specs.Kept.{AreSound, IsKept};
ghost use Rattle.dsm_model.specs.Views.{AllRoom, wires_of, nexts_of, locals_of, local_of};

use crate::first::first;
use crate::instruct::{asked, block_at, permits, place, word};
use crate::make::make;
use crate::outbox::Outbox;
use crate::queue::Queue;
use crate::wires::wire;
use crate::{Local, Setup};
use mini_asm::Next;
use std::alloc;
use teapot_meaning::Here;
use tw_base::{BlockId, Chan, Entry, Event, Memory, Message, NodeId};

/// All nodes, and the wires between them.
#[derive(Debug, Drop)]
pub struct Global<'a> {
    setup: &'a Setup,
    locals: Vec<Local>,
    outboxes: Vec<Outbox>,
    ghost kept: { IsKept setup.now locals.items outboxes.items },
}

/// The nodes at the start.
fn first_locals(alloc: alloc::Global, setup: &Setup) -> Result<Vec<Local>, Memory>
    ensures count { IfOk result (λ locals. length locals.items ≡ setup.now.shape.nodes) }
    ensures each { IfOk result (λ locals. (i : ℕ) → locals_of setup.now locals.items i ≡ first setup.now i) }
    ensures sound { IfOk result (λ locals. AreSound setup.now locals.items) }
{
    let mut locals = Vec::new(alloc);
    for number in 0..setup.shape().nodes() {
        let me = NodeId::new(number).unwrap();
        locals.push(first(alloc, setup, me)?)?;
    }
    Ok(locals)
}

/// Empty wires from each node.
fn first_outboxes(alloc: alloc::Global, count: usize) -> Result<Vec<Outbox>, Memory>
    ensures count { IfOk result (λ outboxes. length outboxes.items ≡ count) }
    ensures room { IfOk result (λ outboxes. AllRoom outboxes.items) }
    ensures empty { IfOk result (λ outboxes. (f t : ℕ) (c : Chan) → wires_of outboxes.items f t c ≡ []) }
    ensures first { IfOk result (λ outboxes. (f t : ℕ) (c : Chan) → nexts_of outboxes.items f t c ≡ 0) }
{
    let mut outboxes = Vec::new(alloc);
    for made in 0..count {
        outboxes.push(Outbox::new(alloc)?)?;
    }
    Ok(outboxes)
}

impl<'a> Global<'a> {
    ghost use Rattle.block_tags.specs.Copies.{permits};
    ghost use Rattle.dsm_model.specs.Globals.{setup_of, world_of};
    ghost use Rattle.dsm_runs.specs.Events.{word_here};
    ghost use Rattle.dsm_runs.specs.Setups.{asked, size_of};
    ghost use Rattle.dsm_runs.specs.Worlds.{IsEnabled, Step, event_of, start};

    /// The state at the start.
    pub fn new(alloc: alloc::Global, setup: &'a Setup) -> Result<Self, Memory>
        ensures setup { IfOk result (λ g. setup_of g ≡ setup.now) }
        ensures world { IfOk result (λ g. world_of g ≡ start setup.now) }
    {
        let locals = first_locals(alloc, setup)?;
        let outboxes = first_outboxes(alloc, setup.shape().nodes() as usize)?;
        Ok(Global {
            setup,
            locals,
            outboxes,
        })
    }

    pub fn setup(&self) -> &'a Setup
        ensures { result.now ≡ setup_of self.now }
    {
        self.setup
    }

    /// A node.
    pub fn local(&self, node: NodeId) -> &Local
        requires { node < (setup_of self.now).shape.nodes }
        ensures { local_of (setup_of self.now) node result.now ≡ (world_of self.now).locals node }
    {
        &self.locals[usize::from(node.get())]
    }

    /// What the next instruction of a node asks for.
    pub fn asked(&self, node: NodeId) -> Next
        requires { node < (setup_of self.now).shape.nodes }
        ensures { result ≡ asked (setup_of self.now) node ((world_of self.now).locals node).cpu }
    {
        asked(self.setup, node, &self.local(node).cpu)
    }

    /// A block at a node.
    pub fn block(&self, node: NodeId, block: BlockId) -> &Here
        requires node { node < (setup_of self.now).shape.nodes }
        requires block { block < (setup_of self.now).shape.blocks }
        ensures { result.now ≡ ((world_of self.now).locals node).blocks block }
    {
        block_at(&self.locals[usize::from(node.get())], block)
    }

    /// Whether the tag of a block at a node permits a store, or a load.
    pub fn permits(&self, node: NodeId, block: BlockId, store: bool) -> bool
        requires node { node < (setup_of self.now).shape.nodes }
        requires block { block < (setup_of self.now).shape.blocks }
        ensures { result ≡ permits (((world_of self.now).locals node).blocks block).tag store }
    {
        permits(self.block(node, block).tag, store)
    }

    /// A node's copy of the word at an address.
    pub fn word(&self, node: NodeId, address: u32) -> u64
        requires node { node < (setup_of self.now).shape.nodes }
        requires address { address < size_of (setup_of self.now) }
        ensures { result ≡ word_here (setup_of self.now) ((world_of self.now).locals node).blocks address }
    {
        let (block, offset) = place(self.setup, address);
        word(self.block(node, block).words, offset)
    }

    fn wire(&self, from: NodeId, to: NodeId, chan: Chan) -> &Queue
        requires { from < (setup_of self.now).shape.nodes }
        ensures { result.now.messages ≡ (world_of self.now).wires from to chan }
    {
        wire(&self.outboxes, from, to, chan)
    }

    /// How many messages are in flight on a wire.
    pub fn held(&self, from: NodeId, to: NodeId, chan: Chan) -> u32
        requires { from < (setup_of self.now).shape.nodes }
        ensures { result ≡ length ((world_of self.now).wires from to chan) }
    {
        self.wire(from, to, chan).len() as u32
    }

    /// The message at a place on a wire, from the front, counted from 0. None exactly past the last.
    pub fn message(&self, from: NodeId, to: NodeId, chan: Chan, k: u32) -> Option<&Message>
        requires { from < (setup_of self.now).shape.nodes }
        ensures { option_copied result ≡ slice_get ((world_of self.now).wires from to chan) k }
    {
        self.wire(from, to, chan).get(k as usize)
    }

    /// Makes an event.
    pub fn make(&mut self, alloc: alloc::Global, e: Event) -> Result<Entry, Memory>
        requires { IsEnabled (setup_of self.old) (world_of self.old) e }
        ensures setup { setup_of self.new ≡ setup_of self.old }
        ensures step { IfOk result (λ entry. (event_of entry ≡ e)
            × Step (setup_of self.old) (world_of self.old) entry (world_of self.new)) }
        ensures err { OnErr result (world_of self.new ≡ world_of self.old) }
    {
        make(alloc, self.setup, &mut self.locals, &mut self.outboxes, e)
    }
}
