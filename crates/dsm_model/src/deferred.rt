ghost use Rattle.std.specs.Prelude.{◌≡◌, ◌≤◌, ◌<◌, ◌++◌, ◌∷◌, [], Some, map, take, drop, length, remove, slice_get, slice_set};
ghost use Rattle.std.specs.Prelude.{OnOk, OnErr};
ghost use Rattle.std.specs.List.{count_by};
ghost use Rattle.dsm_runs.specs.Events.{free};
ghost use Rattle.dsm_runs.specs.Tests.{has_eligible};

use crate::Waiting;
use std::alloc::Global;
use std::marker::Model;
use tw_base::{BlockId, Listed, Memory};

/// The messages that a node deferred, seen as their list, in the order in which they were deferred.
///
/// How many are eligible is counted, so that no one needs to walk them to know whether one is.
#[derive(Debug, Drop)]
pub struct Deferred {
    items: Listed<Waiting>,
    eligible: usize,
}

impl Model for Deferred {
    ghost use Rattle.std.specs.Prelude.{◌≡◌, List};
    ghost use Rattle.std.specs.List.{count_by};
    ghost use Rattle.dsm_runs.specs.declared.mode.Waiting.{Waiting};

    ghost Value = { List Waiting };

    ghost view = { λ d. d.items };

    ghost invariant = { λ d. d.eligible ≡ count_by (λ w. w.eligible) d.items };
}

fn count_eligible(items: &[Waiting]) -> usize
    ensures { result ≡ count_by (λ w. w.eligible) items.now }
{
    items.iter().filter(|waiting| waiting.eligible).count()
}

fn free(waiting: Waiting, block: BlockId) -> Waiting
    ensures { result ≡ free block waiting }
{
    Waiting {
        message: waiting.message,
        eligible: waiting.message.block == block || waiting.eligible,
    }
}

impl Deferred {
    pub fn new(alloc: Global) -> Self
        ensures { result ≡ [] }
    {
        Deferred {
            items: Listed::new(alloc),
            eligible: 0,
        }
    }

    pub fn of(items: Vec<Waiting>) -> Self
        ensures { result ≡ items.items }
    {
        let eligible = count_eligible(items.as_slice());
        Deferred {
            items: Listed::of(items),
            eligible,
        }
    }

    pub fn items(&self) -> &[Waiting]
        ensures { result.now ≡ self.now }
    {
        self.items.items()
    }

    pub fn into_vec(self) -> Vec<Waiting>
        ensures { result.items ≡ self }
    {
        let Deferred { items, eligible: _ } = self;
        items.into_vec()
    }

    pub fn len(&self) -> usize
        ensures { result ≡ length self.now }
    {
        self.items.len()
    }

    pub fn has_eligible(&self) -> bool
        ensures { result ≡ has_eligible self.now }
    {
        self.eligible > 0
    }

    /// Puts a message behind the others.
    pub fn push(&mut self, waiting: Waiting) -> Result<(), Memory>
        ensures ok { OnOk result (self.new ≡ self.old ++ waiting ∷ []) }
        ensures err { OnErr result (self.new ≡ self.old) }
    {
        let Waiting { message, eligible } = waiting;
        let _parts = (message.args[0], message.payload);
        self.items.push(Waiting { message, eligible })?;
        let _count = self.items.len();
        self.eligible += usize::from(eligible);
        Ok(())
    }

    /// Takes out the message at a place.
    pub fn remove(&mut self, at: usize) -> Waiting
        requires { at < length self.old }
        ensures item { slice_get self.old at ≡ Some result }
        ensures rest { self.new ≡ remove self.old at }
    {
        let waiting = self.items.remove(at);
        self.eligible -= usize::from(waiting.eligible);
        waiting
    }

    /// Puts a message in the place of another.
    fn set(&mut self, at: usize, waiting: Waiting)
        requires { at < length self.old }
        ensures { self.new ≡ slice_set self.old at waiting }
    {
        let fewer = usize::from(self.items.items()[at].eligible);
        let more = usize::from(waiting.eligible);
        self.items.set(at, waiting);
        self.eligible = self.eligible - fewer + more;
    }

    /// Frees those of the first messages that wait for a block.
    pub fn free_first(&mut self, count: usize, block: BlockId)
        requires { count ≤ length self.old }
        ensures { self.new ≡ map (free block) (take count self.old) ++ drop count self.old }
    {
        for at in 0..count {
            let freed = free(self.items()[at], block);
            self.set(at, freed);
        }
    }
}
