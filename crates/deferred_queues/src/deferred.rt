ghost use Rattle.std.specs.Prelude.{◌≡◌, ◌<◌, ◌++◌, ◌∷◌, [], map, true, false, IfOk, OnOk, OnErr};
ghost use Rattle.std.specs.List.{count_by, list_any};
ghost use Rattle.dsm_runs.specs.Events.{free, freed_if, with_kept};
ghost use Rattle.dsm_runs.specs.Tests.{has_eligible};
ghost use Rattle.deferred_queues.specs.Deferrals.{TakesFirst, nothing_deferred, stays_ready};
ghost use Rattle.deferred_queues.specs.Queues.{AreEmpty, IsEarliest, is_earlier, is_open};

use crate::queue::Queue;
use std::alloc::Global;
use std::marker::Model;
use teapot_meaning::Kept;
use tw_base::{BlockId, Memory, Message};

/// The messages that a node deferred, seen as their list, in the order in which they were deferred.
///
/// `next` is how many were deferred so far, `open_count` how many queues have an eligible message. Only the queue of the
/// block `tight` may have no room for one message more.
#[derive(Drop)]
pub struct Deferred {
    queues: Vec<Queue>,
    next: u64,
    open_count: usize,
    tight: Option<BlockId>,
}

impl Model for Deferred {
    ghost use Rattle.deferred_queues.specs.Deferrals.{DeferredList, AreKept, list_of};

    ghost Value = { DeferredList };

    ghost view = { λ d. list_of d.queues.items d.next d.tight };

    ghost invariant = { λ d. AreKept d.queues.items d.next d.open_count d.tight };
}

/// Empty queues, each with room for one message.
fn empty_queues(alloc: Global, count: u8) -> Result<Vec<Queue>, Memory>
    ensures { IfOk result (λ queues. AreEmpty count queues.items) }
{
    let mut queues = Vec::new(alloc);
    for _ in 0..count {
        queues.push(Queue::new(alloc)?)?;
    }
    Ok(queues)
}

/// Whether the first of two arrival numbers is there, and below the second if that is there.
fn is_earlier(arrival: Option<u64>, than: Option<u64>) -> bool
    ensures { result ≡ is_earlier arrival than }
{
    match (arrival, than) {
        (Some(arrival), Some(than)) => arrival < than,
        (Some(_), None) => true,
        (None, _) => false,
    }
}

/// The place of the queue with the eligible message that came first, where `open_count` queues have an eligible message.
fn earliest(queues: &[Queue], open_count: usize) -> usize
    requires any { list_any is_open queues.now ≡ true }
    requires count { open_count ≡ count_by is_open queues.now }
    ensures { IsEarliest queues.now result }
{
    let mut found = 0;
    let mut left = open_count;
    for (at, queue) in queues.iter().enumerate() {
        if left == 0 {
            return found;
        }
        left -= usize::from(queue.first().is_some());
        if is_earlier(queue.first(), queues[found].first()) {
            found = at;
        }
    }
    found
}

impl Deferred {
    /// No messages, and queues for the blocks below a number.
    pub fn new(alloc: Global, blocks: u8) -> Result<Self, Memory>
        ensures { IfOk result (λ d. d ≡ nothing_deferred blocks) }
    {
        let queues = empty_queues(alloc, blocks)?;
        Ok(Deferred {
            queues,
            next: 0,
            open_count: 0,
            tight: None,
        })
    }

    /// Makes room for one message more.
    pub fn ready(&mut self) -> Result<(), Memory>
        ensures ok { OnOk result (self.new ≡ record self.old { ready = true }) }
        ensures err { OnErr result (self.new ≡ self.old) }
    {
        let Some(block) = self.tight else {
            return Ok(());
        };
        if self.next == u64::MAX {
            return Err(Memory);
        }
        self.queues[usize::from(block.get())].reserve()?;
        self.tight = None;
        Ok(())
    }

    /// Whether a message is eligible.
    pub fn has_eligible(&self) -> bool
        ensures { result ≡ has_eligible self.now.list }
    {
        self.open_count > 0
    }

    /// Takes the eligible message that came first.
    pub fn take_first(&mut self) -> Message
        requires { has_eligible self.old.list ≡ true }
        ensures takes { TakesFirst result self.old.list self.new.list }
        ensures block { result.block < self.old.blocks }
        ensures ready { self.new.ready ≡ self.old.ready }
        ensures blocks { self.new.blocks ≡ self.old.blocks }
    {
        let at = earliest(self.queues.as_slice(), self.open_count);
        let queue = &mut self.queues[at];
        let held = queue.pop();
        let more = usize::from(queue.first().is_some());
        self.open_count = self.open_count - 1 + more;
        held.message
    }

    /// Puts a message behind the others. It is not eligible.
    fn push(&mut self, message: &Message)
        requires ready { self.old.ready ≡ true }
        requires block { message.now.block < self.old.blocks }
        ensures list { self.new.list ≡ self.old.list ++ record { message = message.now; eligible = false } ∷ [] }
        ensures ready { self.new.ready ≡ false }
        ensures blocks { self.new.blocks ≡ self.old.blocks }
    {
        let arrival = self.next;
        self.queues[usize::from(message.block.get())].push(arrival, message);
        self.next = arrival + 1;
        self.tight = Some(message.block);
    }

    /// Makes the messages of a block eligible.
    fn free(&mut self, block: BlockId)
        requires { block < self.old.blocks }
        ensures list { self.new.list ≡ map (free block) self.old.list }
        ensures ready { self.new.ready ≡ self.old.ready }
        ensures blocks { self.new.blocks ≡ self.old.blocks }
    {
        let next = self.next;
        let queue = &mut self.queues[usize::from(block.get())];
        let fewer = usize::from(queue.first().is_some());
        queue.free(next);
        let more = usize::from(queue.first().is_some());
        self.open_count = self.open_count - fewer + more;
    }

    /// Leaves of the list what a handler of a message leaves of it: the message is kept behind the others, or not, and
    /// the messages of its block are made eligible where it freed them.
    pub fn settle(&mut self, kept: Kept, freed: bool, message: &Message)
        requires ready { self.old.ready ≡ true }
        requires block { message.now.block < self.old.blocks }
        requires freed { kept ≡ Kept.Eligible → freed ≡ true }
        ensures list { self.new.list ≡ with_kept kept message.now (freed_if freed message.now.block self.old.list) }
        ensures ready { self.new.ready ≡ stays_ready kept }
        ensures blocks { self.new.blocks ≡ self.old.blocks }
    {
        match kept {
            Kept::Eligible => {
                self.push(message);
                self.free(message.block);
            }
            Kept::Stale => {
                if freed {
                    self.free(message.block);
                }
                self.push(message);
            }
            Kept::No => {
                if freed {
                    self.free(message.block);
                }
            }
        }
    }
}
