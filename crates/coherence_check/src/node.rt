ghost use Rattle.std.specs.Prelude.{ℕ, ◌≡◌, ◌≢◌, ◌<◌, [], None, map, true, List};
ghost use Rattle.std.specs.Bool.{Decides};
ghost use Rattle.tw_base.specs.declared.message.Chan.TheVariants.{Zero};
ghost use Rattle.block_spots.specs.Notes.{kept_notes, notes};
ghost use Rattle.block_spots.specs.Sketches.{Loads, Stores};
ghost use Rattle.block_spots.specs.Views.{layout, seen_may, seen_message, seen_next};
ghost use Rattle.coherence_inv.specs.Parts.{EachCache, IsPlaced, seen};
ghost use Rattle.stache_d_inv.specs.Parts as parts_d;
ghost use Rattle.stache_l_inv.specs.Parts as parts_l;
ghost use Rattle.dsm_model.specs.Globals.{setup_of, world_of};
ghost use Rattle.dsm_model.specs.Views.{local_of};
ghost use Rattle.dsm_runs.specs.declared.mode.Mode.TheVariants as mode;
ghost use Rattle.dsm_runs.specs.Setups.{asked, block_of, home_of};
ghost use Rattle.note_reads.specs.Notes.{IsSummary};
ghost use Rattle.coherence_reads.specs.Seeing.{which};
ghost use Rattle.coherence_check.specs.Nodes.{HasNone, NodeAt, SendsNone};
ghost use Rattle.coherence_check.specs.Under.{AtNodeUnder, IsPlacedUnder, seen_under};
ghost use Rattle.coherence_check.specs.Waits.{IsNode};

use crate::reading::{deferred, home, nodes, words};
use crate::waits::{Node, node_fits};
use crate::wire::said;
use coherence_reads::{
    Part, are_none_from, is_literal, kept_of, left_fits, left_of, place_seen, rest_under, sharers,
};
use dsm_model::{Global, Local, Mode, Setup};
use mini_asm::Next;
use stache_check::Directory;
use teapot_meaning::Here;
use tw_base::{BlockId, Chan, NodeId};

fn has_not_failed(g: &Global, node: NodeId) -> bool
    requires { node < (setup_of g.now).shape.nodes }
    ensures { Decides result (((world_of g.now).locals node).failed ≡ None) }
{
    g.local(node).failed.is_none()
}

/// Whether it is a block of Stache with its continuation whole, which restores a state that it may.
fn is_placed_of_stache(here: &Here) -> bool
    ensures { Decides result (IsPlaced here.now) }
{
    let _eight = sharers(here.infos.items()).has(here.me);
    is_literal(Directory::Stache, here)
        && left_fits(place_seen(here.state.state), left_of(&here.state.cont))
}

/// Whether it is a block of Stache_D with its continuation whole, which restores a state that it may.
fn is_placed_of_d(here: &Here) -> bool
    ensures { Decides result (parts_d.IsPlaced here.now) }
{
    let _eight = sharers(here.infos.items()).has(here.me);
    is_literal(Directory::StacheD, here)
        && left_fits(place_seen(here.state.state), left_of(&here.state.cont))
}

/// Whether it is a block of Stache_L with its continuation whole, which restores a state that it may.
fn is_placed_of_l(here: &Here) -> bool
    ensures { Decides result (parts_l.IsPlaced here.now) }
{
    let _eight = sharers(here.infos.items()).has(here.me);
    is_literal(Directory::StacheL, here)
        && left_fits(place_seen(here.state.state), left_of(&here.state.cont))
}

fn is_placed(directory: Directory, here: &Here) -> bool
    ensures { Decides result (IsPlacedUnder directory here.now) }
{
    match directory {
        Directory::Stache => is_placed_of_stache(here),
        Directory::StacheD => is_placed_of_d(here),
        Directory::StacheL => is_placed_of_l(here),
    }
}

fn is_placed_at(g: &Global, directory: Directory, block: BlockId, node: NodeId) -> bool
    requires node { node < (setup_of g.now).shape.nodes }
    requires block { block < (setup_of g.now).shape.blocks }
    ensures { Decides result (IsPlacedUnder directory (((world_of g.now).locals node).blocks block)) }
{
    is_placed(directory, g.block(node, block))
}

/// Whether a wire has nothing of a block.
fn is_silent(g: &Global, block: BlockId, from: NodeId, to: NodeId, chan: Chan) -> bool
    requires from { from < (setup_of g.now).shape.nodes }
    requires block { block < (setup_of g.now).shape.blocks }
    ensures { Decides result (notes block ((seen (setup_of g.now) (world_of g.now)).wires from to chan) ≡ []) }
{
    let own = g.block(home(g, block), block);
    said(g, from, to, chan, block, own.words).few.is_empty()
}

/// Whether a node sends another nothing of a block, which may be the home.
fn sends_none(g: &Global, block: BlockId, from: NodeId, to: NodeId) -> bool
    requires from { from < (setup_of g.now).shape.nodes }
    requires block { block < (setup_of g.now).shape.blocks }
    ensures { Decides result (to ≢ home_of (setup_of g.now) block → SendsNone (setup_of g.now) (world_of g.now) block from to) }
{
    if to == home(g, block) {
        return true;
    }
    is_silent(g, block, from, to, Chan::Zero) && is_silent(g, block, from, to, Chan::One)
}

fn sends_none_but_home(g: &Global, block: BlockId, from: NodeId) -> bool
    requires from { from < (setup_of g.now).shape.nodes }
    requires block { block < (setup_of g.now).shape.blocks }
    ensures { Decides result (EachCache (setup_of g.now).shape.nodes (home_of (setup_of g.now) block)
        (SendsNone (setup_of g.now) (world_of g.now) block from)) }
{
    for number in 0..nodes(g) {
        let node = NodeId::new(number).unwrap();
        if !sends_none(g, block, from, node) {
            return false;
        }
    }
    true
}

fn is_home_silent(g: &Global, block: BlockId, node: NodeId) -> bool
    requires { block < (setup_of g.now).shape.blocks }
    ensures { Decides result
        (notes block ((seen (setup_of g.now) (world_of g.now)).wires (home_of (setup_of g.now) block) node Zero) ≡ []) }
{
    is_silent(g, block, home(g, block), node, Chan::Zero)
}

fn defers_none(g: &Global, block: BlockId, node: NodeId) -> bool
    requires { node < (setup_of g.now).shape.nodes }
    ensures { Decides result ((j : ℕ) → kept_notes block j ((seen (setup_of g.now) (world_of g.now)).locals node).deferred ≡ []) }
{
    are_none_from(deferred(g, node), block, 0)
}

fn has_none(g: &Global, block: BlockId, node: NodeId) -> bool
    requires node { node < (setup_of g.now).shape.nodes }
    requires block { block < (setup_of g.now).shape.blocks }
    ensures { Decides result (HasNone (setup_of g.now) (world_of g.now) block node) }
{
    sends_none_but_home(g, block, node)
        && is_home_silent(g, block, node)
        && defers_none(g, block, node)
}

/// Whether a node that is not the home has nothing of the block but with the home.
fn has_its_places(g: &Global, block: BlockId, node: NodeId) -> bool
    requires node { node < (setup_of g.now).shape.nodes }
    requires block { block < (setup_of g.now).shape.blocks }
    ensures { Decides result (node ≢ home_of (setup_of g.now) block → HasNone (setup_of g.now) (world_of g.now) block node) }
{
    if node == home(g, block) {
        return true;
    }
    has_none(g, block, node)
}

fn is_blocked(does: Mode, block: BlockId) -> bool
    ensures { Decides result (does ≡ mode.Blocked block) }
{
    match does {
        Mode::Blocked(other) => other == block,
        _ => false,
    }
}

fn is_woken(does: Mode) -> bool
    ensures { Decides result (does ≡ mode.Woken) }
{
    matches!(does, Mode::Woken)
}

fn mode_of(g: &Global, node: NodeId) -> Mode
    requires { node < (setup_of g.now).shape.nodes }
    ensures { result ≡ ((world_of g.now).locals node).mode }
{
    g.local(node).mode
}

/// All that an instruction event needs but the mode.
fn may(setup: &Setup, me: NodeId, l: &Local) -> bool
    ensures { result ≡ seen_may setup.now (local_of setup.now me l.now) }
{
    let shape = setup.shape();
    l.failed.is_none()
        && l.instructions < shape.budget()
        && l.sent < shape.handler_budget()
        && l.clock < u64::MAX
}

fn may_at(g: &Global, node: NodeId) -> bool
    requires { node < (setup_of g.now).shape.nodes }
    ensures { Decides result (((seen (setup_of g.now) (world_of g.now)).locals node).may ≡ true) }
{
    may(g.setup(), node, g.local(node))
}

fn is_in(setup: &Setup, address: u32, block: BlockId) -> bool
    ensures { Decides result (block_of setup.now address ≡ block) }
{
    address / u32::from(setup.shape().words()) == u32::from(block.get())
}

fn loads(setup: &Setup, next: Next, block: BlockId) -> bool
    ensures { Decides result (seen_next setup.now next ≡ Loads block) }
{
    match next {
        Next::Access {
            store: false,
            address,
            value: _,
        } => is_in(setup, address, block),
        _ => false,
    }
}

fn stores(setup: &Setup, next: Next, block: BlockId) -> bool
    ensures { Decides result (seen_next setup.now next ≡ Stores block) }
{
    match next {
        Next::Access {
            store: true,
            address,
            value: _,
        } => is_in(setup, address, block),
        Next::Faa { address, added: _ } => is_in(setup, address, block),
        _ => false,
    }
}

fn node_seen(g: &Global, directory: Directory, block: BlockId, node: NodeId) -> Node
    requires node { node < (setup_of g.now).shape.nodes }
    requires block { block < (setup_of g.now).shape.blocks }
    ensures { IsNode result (home_of (setup_of g.now) block)
        ((seen_under directory (setup_of g.now) (world_of g.now)).locals node) node block }
{
    let here = g.block(node, block);
    let kept = kept_of(deferred(g, node), block, node, words(g), here.words);
    Node {
        own: node == home(g, block),
        blocked: is_blocked(mode_of(g, node), block),
        woken: is_woken(mode_of(g, node)),
        may: may_at(g, node),
        loads: loads(g.setup(), g.asked(node), block),
        stores: stores(g.setup(), g.asked(node), block),
        place: place_seen(here.state.state),
        tag: here.tag,
        rd_fault: kept.rd_fault,
        wr_fault: kept.wr_fault,
        whose: rest_under(directory, &here.state.cont),
    }
}

fn waits_so(g: &Global, directory: Directory, block: BlockId, node: NodeId) -> bool
    requires node { node < (setup_of g.now).shape.nodes }
    requires block { block < (setup_of g.now).shape.blocks }
    ensures { Decides result (AtNodeUnder directory (layout (setup_of g.now))
        ((seen_under directory (setup_of g.now) (world_of g.now)).locals node) node block) }
{
    let x = node_seen(g, directory, block, node);
    node_fits(directory, &x)
}

fn node_at(g: &Global, directory: Directory, part: Part, block: BlockId, node: NodeId) -> bool
    requires node { node < (setup_of g.now).shape.nodes }
    requires block { block < (setup_of g.now).shape.blocks }
    ensures { Decides result (NodeAt directory (which part) (setup_of g.now) (world_of g.now) block node) }
{
    match part {
        Part::First => has_not_failed(g, node),
        Part::Second => is_placed_at(g, directory, block, node),
        Part::Third => has_its_places(g, block, node),
        Part::Fourth => waits_so(g, directory, block, node),
        _ => true,
    }
}

/// Whether each node is as the part asks.
pub fn nodes_fit(g: &Global, directory: Directory, part: Part, block: BlockId) -> bool
    requires { block < (setup_of g.now).shape.blocks }
    ensures { Decides result ((i : ℕ) → i < (setup_of g.now).shape.nodes →
        NodeAt directory (which part) (setup_of g.now) (world_of g.now) block i) }
{
    for number in 0..nodes(g) {
        let node = NodeId::new(number).unwrap();
        if !node_at(g, directory, part, block, node) {
            return false;
        }
    }
    true
}
