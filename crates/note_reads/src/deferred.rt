ghost use Rattle.std.specs.Prelude.{ℕ, ◌≡◌, ◌≤◌, ◌+◌, ◌∷◌, [], ◌++◌, List, map, Some, slice_get, take};
ghost use Rattle.std.specs.Bool.{Decides};
ghost use Rattle.std.specs.List.{list_all};
ghost use Rattle.block_spots.specs.Notes.{kept_notes, of_block_from};
ghost use Rattle.block_spots.specs.Views.{seen_waiting};
ghost use Rattle.coherence_inv.specs.Coherent.{AllEligible};
ghost use Rattle.dsm_runs.specs.declared.mode.Waiting.{Waiting as Held};
ghost use Rattle.note_reads.specs.Notes.{IsSummary};
ghost use Rattle.note_reads.specs.Deferring.{is_eligible_for, is_none_from, kept_to};

use crate::{Summary, note_of};
use dsm_runs::Waiting;
use tw_base::{BlockId, Data, NodeId};

fn is_of(waiting: &Waiting, block: BlockId, node: NodeId) -> bool
    ensures { result ≡ of_block_from block node (seen_waiting waiting.now) }
{
    waiting.message.block == block && waiting.message.from == node
}

#[tactic(auto, using(crate::proofs::Deferring::keeping))]
fn with_one(
    so_far: Summary,
    waiting: &Waiting,
    block: BlockId,
    node: NodeId,
    count: u8,
    words: Data,
) -> Summary
    ensures { (k : ℕ) (ws : List Held) → slice_get ws k ≡ Some waiting.now →
        IsSummary count words so_far (kept_to block node k ws) → IsSummary count words result (kept_to block node (k + 1) ws) }
{
    if is_of(waiting, block, node) {
        so_far.and(&note_of(&waiting.message), count, words)
    } else {
        so_far
    }
}

/// What a home deferred of a block from a node.
pub fn kept_of(
    deferred: &[Waiting],
    block: BlockId,
    node: NodeId,
    count: u8,
    words: Data,
) -> Summary
    ensures { IsSummary count words result (kept_notes block node (map seen_waiting deferred.now)) }
{
    let mut summary = Summary::new();
    for at in 0..deferred.len() {
        summary = with_one(summary, &deferred[at], block, node, count, words);
    }
    summary
}

fn none_from(waiting: &Waiting, block: BlockId, least: u8) -> bool
    ensures { result ≡ is_none_from block least waiting.now }
{
    waiting.message.block != block || waiting.message.from.get() < least
}

fn all_none_from(deferred: &[Waiting], block: BlockId, least: u8) -> bool
    ensures { result ≡ list_all (is_none_from block least) deferred.now }
{
    deferred
        .iter()
        .all(|waiting| none_from(waiting, block, least))
}

/// Whether none is of the block and from one of the nodes from this number on.
pub fn are_none_from(deferred: &[Waiting], block: BlockId, least: u8) -> bool
    ensures { Decides result ((j : ℕ) → least ≤ j → kept_notes block j (map seen_waiting deferred.now) ≡ []) }
{
    all_none_from(deferred, block, least)
}

fn is_eligible(waiting: &Waiting, block: BlockId) -> bool
    ensures { result ≡ is_eligible_for block waiting.now }
{
    waiting.message.block != block || waiting.eligible
}

fn all_eligible(deferred: &[Waiting], block: BlockId) -> bool
    ensures { result ≡ list_all (is_eligible_for block) deferred.now }
{
    deferred.iter().all(|waiting| is_eligible(waiting, block))
}

/// Whether each that is of the block is eligible.
pub fn are_eligible(deferred: &[Waiting], block: BlockId) -> bool
    ensures { Decides result (AllEligible block (map seen_waiting deferred.now)) }
{
    all_eligible(deferred, block)
}
