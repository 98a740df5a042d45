ghost use Rattle.std.specs.Prelude.{◌≡◌, ◌+◌, ◌*◌, ◌^◌, ◌<◌, ◌≤◌, count_ones, length, map, slice_get, slice_set, sum, IfOk};
ghost use Rattle.std.specs.List.{All};
ghost use Rattle.dsm_runs.specs.Schedules.{chosen};
ghost use Rattle.event_masks.specs.Told.{told_events};

use crate::masks::{event_told, numbered};
use std::alloc::Global;
use std::marker::Model;
use tw_base::{Event, Memory, NodeId};

/// Words of bits that tell the events that may happen, a word a node. How many they tell is kept beside them, so that the event
/// that a schedule takes is found by one look at each node.
#[derive(Drop)]
pub struct EventWords {
    words: Vec<u32>,
    // how many bits of each word are 1, and of all words
    counts: Vec<u32>,
    total: u32,
}

impl Model for EventWords {
    ghost use Rattle.std.specs.Prelude.{ℕ, List};
    ghost use Rattle.event_masks.specs.Counted.{AreCounted};

    ghost Value = { List ℕ };

    ghost view = { λ w. w.words.items };

    ghost invariant = { λ w. AreCounted w.words.items w.counts.items w.total };
}

/// How many bits of a word are 1.
fn ones_of(word: u32) -> u32
    ensures value { result ≡ count_ones word }
    ensures small { result ≤ 32 }
{
    word.count_ones()
}

/// How many bits of each word are 1.
fn counts_of(alloc: Global, words: &[u32]) -> Result<Vec<u32>, Memory>
    ensures counts { IfOk result (λ counts. counts.items ≡ map count_ones words.now) }
    ensures within { IfOk result (λ counts. All (λ c. c ≤ 32) counts.items) }
{
    let mut counts = Vec::new(alloc);
    for word in words {
        counts.push(ones_of(*word))?;
    }
    Ok(counts)
}

fn sum_of(counts: &[u32]) -> u32
    requires { sum counts.now < 2 ^ 32 }
    ensures { result ≡ sum counts.now }
{
    counts.iter().sum()
}

/// The k-th of the events that words tell, of which so many bits each are 1.
fn pick(words: &[u32], counts: &[u32], k: u32) -> Option<Event>
    requires few { length words.now ≤ 8 }
    requires counts { counts.now ≡ map count_ones words.now }
    requires small { All (λ w. w < 2 ^ (2 + 2 * length words.now)) words.now }
    ensures { result ≡ slice_get (told_events words.now) k }
{
    let nodes = words.len() as u8;
    let mut more = k;
    for number in 0..nodes {
        let at = usize::from(number);
        let count = counts[at];
        if more < count {
            let node = numbered(number);
            return event_told(node, words[at], more, nodes);
        }
        more -= count;
    }
    None
}

impl EventWords {
    /// These words, of at most eight nodes.
    pub fn of(alloc: Global, words: Vec<u32>) -> Result<Self, Memory>
        requires { length words.items ≤ 8 }
        ensures { IfOk result (λ w. w ≡ words.items) }
    {
        let counts = counts_of(alloc, &words)?;
        let total = sum_of(&counts);
        Ok(EventWords {
            words,
            counts,
            total,
        })
    }

    /// Puts another word in the place of a node's.
    pub fn set(&mut self, node: NodeId, word: u32)
        requires { node < length self.old }
        ensures { self.new ≡ slice_set self.old node word }
    {
        let at = usize::from(node.get());
        let count = ones_of(word);
        self.total = self.total - self.counts[at] + count;
        self.counts[at] = count;
        self.words[at] = word;
    }

    /// How many events the words tell.
    fn count_told(&self) -> u32
        requires { All (λ w. w < 2 ^ (2 + 2 * length self.now)) self.now }
        ensures { result ≡ length (told_events self.now) }
    {
        self.total
    }

    /// The event that a schedule takes of those that the words tell, where `turn` events were taken before. None exactly where
    /// the words tell none.
    pub fn choose(&self, turn: u32, stride: u32) -> Option<Event>
        requires { All (λ w. w < 2 ^ (2 + 2 * length self.now)) self.now }
        ensures { result ≡ chosen stride turn (told_events self.now) }
    {
        let count = self.count_told();
        if count == 0 {
            return None;
        }
        let number = u64::from(turn) * u64::from(stride) % u64::from(count);
        pick(&self.words, &self.counts, number as u32)
    }
}
