ghost use Rattle.std.specs.Prelude.{◌≡◌, ◌<◌, ◌++◌, OnOk};
ghost use Rattle.std.specs.List.{flat_map, range_with_len};
ghost use Rattle.dsm_model.specs.Globals.{setup_of, world_of};
ghost use Rattle.report_replay.specs.Texts.{mode_text, node_line, stand_line, stand_text};

use dsm_model::{Global, Local, Mode};
use printed_text::Text;
use tw_base::{End, Memory, NodeId};

fn mode_text(mode: Mode) -> &'static str
    ensures { result.now ≡ mode_text mode }
{
    match mode {
        Mode::Running => "running",
        Mode::Blocked(_) => "blocked",
        Mode::Woken => "woken",
        Mode::Halted => "halted",
        Mode::Trapped(_) => "trapped",
    }
}

fn stand_text(failed: Option<End>, mode: Mode) -> &'static str
    ensures { result.now ≡ stand_text failed mode }
{
    match failed {
        Some(_) => "failed",
        None => mode_text(mode),
    }
}

fn add_local(out: &mut Text, node: u8, l: &Local) -> Result<(), Memory>
    ensures { OnOk result (out.new ≡ out.old ++ stand_line node
        (stand_text l.now.failed l.now.mode) l.now.cpu.place l.now.clock l.now.instructions l.now.handled l.now.sent) }
{
    let (stand, place, clock) = (stand_text(l.failed, l.mode), l.cpu.place, l.clock);
    let (instructions, handled, sent) = (l.instructions, l.handled, l.sent);
    writeln!(
        out,
        "node {node} {stand} place {place} clock {clock} instructions {instructions} handlers {handled} sent {sent}"
    )
}

fn add_node(out: &mut Text, g: &Global, node: NodeId) -> Result<(), Memory>
    requires { node < (setup_of g.now).shape.nodes }
    ensures { OnOk result (out.new ≡ out.old ++ node_line (world_of g.now) node) }
{
    add_local(out, node.get(), g.local(node))
}

/// A line for each node.
pub fn add_nodes(out: &mut Text, g: &Global) -> Result<(), Memory>
    ensures { OnOk result (out.new ≡ out.old ++ flat_map (node_line (world_of g.now))
        (range_with_len 0 (setup_of g.now).shape.nodes)) }
{
    for number in 0..g.setup().shape().nodes() {
        let node = NodeId::new(number).unwrap();
        add_node(out, g, node)?;
    }
    Ok(())
}
