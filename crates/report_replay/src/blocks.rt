ghost use Rattle.std.specs.Prelude.{◌≡◌, ◌<◌, ◌++◌, min, OnOk};
ghost use Rattle.std.specs.List.{flat_map, range_with_len};
ghost use Rattle.teapot_meaning.specs.Depth.{depth};
ghost use Rattle.dsm_model.specs.Globals.{setup_of, world_of};
ghost use Rattle.report_replay.specs.Texts.{block_line, block_lines, deferred, here_line};

use dsm_model::{Deferred, Global};
use printed_text::{Names, Text, tag_text};
use teapot_meaning::{Here, StateVal};
use tw_base::{BlockId, Memory, NodeId};

// How many suspensions a state holds, at most so many.
#[tactic(auto, unfolding(teapot_meaning::specs::Depth::depth))]
fn depth(state: &StateVal, most: u8) -> u8
    ensures { result ≡ min (depth state.now) most }
{
    if most == 0 {
        return 0;
    }
    match &state.cont {
        Some(cont) => 1 + depth(cont.get().saved.get(), most - 1),
        None => 0,
    }
}

// How many messages of a block are deferred.
fn deferred(waiting: &Deferred, block: BlockId) -> usize
    ensures { result ≡ deferred waiting.now block }
{
    waiting
        .items()
        .iter()
        .filter(|waiting| waiting.message.block == block)
        .count()
}

fn add_here(
    out: &mut Text,
    names: &Names,
    node: u8,
    block: u8,
    here: &Here,
    waiting: usize,
) -> Result<(), Memory>
    ensures { OnOk result (out.new ≡ out.old ++ here_line names.now.protocol.now node block here.now waiting) }
{
    let (tag, depth) = (tag_text(here.tag), depth(&here.state, u8::MAX));
    write!(out, "block {node} {block} state ")?;
    out.add(names.state(here.state.state))?;
    writeln!(out, " tag {tag} depth {depth} deferred {waiting}")
}

fn add_block(
    out: &mut Text,
    names: &Names,
    g: &Global,
    node: NodeId,
    block: BlockId,
) -> Result<(), Memory>
    requires node { node < (setup_of g.now).shape.nodes }
    requires block { block < (setup_of g.now).shape.blocks }
    ensures { OnOk result (out.new ≡ out.old ++ block_line names.now.protocol.now (world_of g.now) node block) }
{
    let waiting = deferred(&g.local(node).deferred, block);
    let here = g.block(node, block);
    add_here(out, names, node.get(), block.get(), here, waiting)
}

fn add_blocks_at(out: &mut Text, names: &Names, g: &Global, node: NodeId) -> Result<(), Memory>
    requires { node < (setup_of g.now).shape.nodes }
    ensures { OnOk result (out.new ≡ out.old ++ block_lines names.now.protocol.now (setup_of g.now).shape.blocks
        (world_of g.now) node) }
{
    for number in 0..g.setup().shape().blocks() {
        let block = BlockId::new(number).unwrap();
        add_block(out, names, g, node, block)?;
    }
    Ok(())
}

/// A line for each node and block.
pub fn add_blocks(out: &mut Text, names: &Names, g: &Global) -> Result<(), Memory>
    ensures { OnOk result
        (out.new ≡ out.old ++ flat_map (block_lines names.now.protocol.now (setup_of g.now).shape.blocks (world_of g.now))
        (range_with_len 0 (setup_of g.now).shape.nodes)) }
{
    for number in 0..g.setup().shape().nodes() {
        let node = NodeId::new(number).unwrap();
        add_blocks_at(out, names, g, node)?;
    }
    Ok(())
}
