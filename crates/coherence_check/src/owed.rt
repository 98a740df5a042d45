ghost use Rattle.std.specs.Prelude.{ℕ, ◌≡◌, ◌≤◌, ◌<◌, ◌+◌, ◌*◌, ◌^◌, [], ◌∷◌, map};
ghost use Rattle.std.specs.Bool.{Decides};
ghost use Rattle.tw_base.specs.Lists.{how_many, sum_below};
ghost use Rattle.block_spots.specs.Notes.{notes, owes};
ghost use Rattle.block_spots.specs.Views.{seen_message};
ghost use Rattle.coherence_inv.specs.Parts.{spots_seen};
ghost use Rattle.dsm_model.specs.Globals.{setup_of, world_of};
ghost use Rattle.tw_base.specs.declared.message.Chan.TheVariants.{One};
ghost use Rattle.note_reads.specs.Notes.{note_in};
ghost use Rattle.coherence_check.specs.Owing.{AcksFit, owing};

use crate::reading::{home, nodes};
use crate::spot::home_at;
use crate::wire::is_of;
use coherence_reads::{Note, note_of};
use dsm_model::Global;
use stache_check::{Directory, Place};
use tw_base::{BlockId, Chan, Message, NodeId};

/// 1 for an INV, or an ACK, 0 for another note.
fn note_owed(note: &Note, inv: bool) -> u64
    ensures value { result ≡ owing inv (note_in note.now) }
    ensures most { result ≤ 1 }
{
    match *note {
        Note::Inv => u64::from(inv),
        Note::Ack => u64::from(!inv),
        _ => 0,
    }
}

fn message_owed(m: &Message, block: BlockId, inv: bool) -> u64
    ensures value { result ≡ how_many (owing inv) (notes block (seen_message m.now ∷ [])) }
    ensures most { result ≤ 1 }
{
    if !is_of(m, block) {
        return 0;
    }
    note_owed(&note_of(m), inv)
}

/// How many INVs, or ACKs, of a block are on a wire of channel 1.
fn count_on(g: &Global, from: NodeId, to: NodeId, block: BlockId, inv: bool) -> u64
    requires { from < (setup_of g.now).shape.nodes }
    ensures value { result ≡ how_many (owing inv) (notes block (map seen_message ((world_of g.now).wires from to One))) }
    ensures most { result < 2 ^ 32 }
{
    let mut count = 0;
    for k in 0..g.held(from, to, Chan::One) {
        let m = g.message(from, to, Chan::One, k).unwrap();
        count += message_owed(m, block, inv);
    }
    count
}

/// How many INVs and ACKs are on the way between the home and a node.
fn owed_at(g: &Global, block: BlockId, node: NodeId) -> u64
    requires { node < (setup_of g.now).shape.nodes }
    ensures value { result ≡ owes (spots_seen (setup_of g.now) (world_of g.now) block node) }
    ensures most { result < 2 ^ 33 }
{
    let own = home(g, block);
    count_on(g, own, node, block, true) + count_on(g, node, own, block, false)
}

fn owed(g: &Global, block: BlockId) -> u64
    ensures { result ≡ sum_below (setup_of g.now).shape.nodes (λ j. owes (spots_seen (setup_of g.now) (world_of g.now) block j)) }
{
    let mut sum = 0;
    for number in 0..nodes(g) {
        let node = NodeId::new(number).unwrap();
        sum += owed_at(g, block, node);
    }
    sum
}

/// Whether a home that collects acknowledgements waits for as many as are owed.
pub fn acks_fit(g: &Global, directory: Directory, block: BlockId) -> bool
    requires { block < (setup_of g.now).shape.blocks }
    ensures { Decides result (AcksFit directory (setup_of g.now) (world_of g.now) block) }
{
    let own = home_at(g, directory, block);
    match own.place {
        Place::HomeAcks => u64::from(own.acks) == owed(g, block),
        _ => true,
    }
}
