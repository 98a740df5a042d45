ghost use Rattle.std.specs.Prelude.{◌≡◌, ◌<◌, ◌++◌, ◌∷◌, ◌+◌, ℕ, [], map, List, slice_get, Some};
ghost use Rattle.block_spots.specs.Notes.{notes, of_block};
ghost use Rattle.block_spots.specs.Views.{seen_message};
ghost use Rattle.dsm_model.specs.Globals.{setup_of, world_of};
ghost use Rattle.tw_base.specs.declared.message.Message.{Message as Letter};
ghost use Rattle.note_reads.specs.Notes.{IsSummary};
ghost use Rattle.coherence_check.specs.Said.{said_to};

use crate::reading::words;
use coherence_reads::{Summary, note_of};
use dsm_model::Global;
use tw_base::{BlockId, Chan, Data, Message, NodeId};

pub fn is_of(m: &Message, block: BlockId) -> bool
    ensures { result ≡ of_block block (seen_message m.now) }
{
    m.block == block
}

#[tactic(auto, using(crate::proofs::Saying::saying))]
fn with_one(so_far: Summary, m: &Message, block: BlockId, count: u8, words: Data) -> Summary
    ensures { (k : ℕ) (ms : List Letter) → slice_get ms k ≡ Some m.now → IsSummary count words so_far (said_to block k ms) →
        IsSummary count words result (said_to block (k + 1) ms) }
{
    if is_of(m, block) {
        so_far.and(&note_of(m), count, words)
    } else {
        so_far
    }
}

/// What is on a wire of a block, whose home has these words.
pub fn said(
    g: &Global,
    from: NodeId,
    to: NodeId,
    chan: Chan,
    block: BlockId,
    at_home: Data,
) -> Summary
    requires { from < (setup_of g.now).shape.nodes }
    ensures { IsSummary (setup_of g.now).shape.words at_home result
        (notes block (map seen_message ((world_of g.now).wires from to chan))) }
{
    let count = words(g);
    let mut summary = Summary::new();
    for k in 0..g.held(from, to, chan) {
        let m = g.message(from, to, chan, k).unwrap();
        summary = with_one(summary, m, block, count, at_home);
    }
    summary
}
