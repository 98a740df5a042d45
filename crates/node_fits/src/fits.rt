ghost use Rattle.std.specs.Prelude.{◌≡◌, ◌<◌, ◌↔◌, IsTrue, None, true, false};
ghost use Rattle.dsm_runs.specs.Invariants.{is_fault};
ghost use Rattle.teapot_meaning.specs.Fits.{HasWords, IsMessageOf};
ghost use Rattle.node_meaning.specs.Stands.{IsFit};

use crate::arguments::{are_within, have_types};
use dsm_runs::Setup;
use teapot_tree::Protocol;
use tw_base::{Data, Kind, Message, NodeId, Shape};

// Whether there is data of so many words where data is carried, and none where it is not.
fn is_carried(carries: bool, payload: &Option<Data>, words: u8) -> bool
    ensures { IsTrue result ↔ ((carries ≡ true → HasWords words payload.now) × (carries ≡ false → payload.now ≡ None)) }
{
    match payload {
        Some(data) => carries && data.len == words,
        None => !carries,
    }
}

// Whether it is a message of the protocol, and no fault, for blocks of so many words.
fn is_named_message(p: &Protocol, words: u8, m: &Message) -> bool
    ensures { IsTrue result ↔ (IsMessageOf p.now words m.now × (is_fault m.now.kind ≡ false)) }
{
    let Kind::Named(number) = m.kind else {
        return false;
    };
    let Some(decl) = p.messages.get(usize::from(number)) else {
        return false;
    };
    let args = &m.args[..usize::from(m.arg_count)];
    have_types(args, decl.args.items()) && is_carried(decl.carries, &m.payload, words)
}

// Whether the message is for the node, and both its ends and its block are of the machine.
fn is_placed(shape: Shape, me: NodeId, m: &Message) -> bool
    ensures { IsTrue result ↔ ((m.now.to ≡ me) × (me < shape.nodes) × (m.now.from < shape.nodes) × (m.now.block < shape.blocks)) }
{
    m.to == me
        && me.get() < shape.nodes()
        && m.from.get() < shape.nodes()
        && m.block.get() < shape.blocks()
}

/// Whether node `me` may keep the message, which came off a wire to it.
pub fn is_fit(setup: &Setup, me: NodeId, m: &Message) -> bool
    ensures { IsTrue result ↔ IsFit setup.now m.now.from me m.now }
{
    let shape = setup.shape();
    if !is_placed(shape, me, m)
        || !is_named_message(setup.protocol().protocol(), shape.words(), m)
    {
        return false;
    }
    are_within(&m.args[..usize::from(m.arg_count)], shape.nodes())
}
