ghost use Rattle.std.specs.Prelude.{◌≡◌, ◌<◌, ◌++◌, OnOk};
ghost use Rattle.std.specs.List.{flat_map, range_with_len};
ghost use Rattle.dsm_model.specs.Globals.{setup_of, world_of};
ghost use Rattle.report_replay.specs.Texts.{held_line, wire_line, wires_between, wires_from};

use dsm_model::Global;
use printed_text::{Text, chan_text};
use tw_base::{Chan, Memory, NodeId};

fn add_held(out: &mut Text, from: u8, to: u8, chan: Chan, held: u32) -> Result<(), Memory>
    ensures { OnOk result (out.new ≡ out.old ++ held_line from to chan held) }
{
    if held != 0 {
        let chan = chan_text(chan);
        writeln!(out, "wire {from} {to} {chan} held {held}")?;
    }
    Ok(())
}

fn add_wire(out: &mut Text, g: &Global, from: NodeId, to: NodeId, chan: Chan) -> Result<(), Memory>
    requires { from < (setup_of g.now).shape.nodes }
    ensures { OnOk result (out.new ≡ out.old ++ wire_line (world_of g.now) from to chan) }
{
    let held = g.held(from, to, chan);
    add_held(out, from.get(), to.get(), chan, held)
}

fn add_between(out: &mut Text, g: &Global, from: NodeId, to: NodeId) -> Result<(), Memory>
    requires { from < (setup_of g.now).shape.nodes }
    ensures { OnOk result (out.new ≡ out.old ++ wires_between (world_of g.now) from to) }
{
    add_wire(out, g, from, to, Chan::Zero)?;
    add_wire(out, g, from, to, Chan::One)
}

fn add_wires_from(out: &mut Text, g: &Global, from: NodeId) -> Result<(), Memory>
    requires { from < (setup_of g.now).shape.nodes }
    ensures { OnOk result (out.new ≡ out.old ++ wires_from (setup_of g.now).shape.nodes (world_of g.now) from) }
{
    for number in 0..g.setup().shape().nodes() {
        let to = NodeId::new(number).unwrap();
        add_between(out, g, from, to)?;
    }
    Ok(())
}

/// A line for each wire that holds a message, by sender, receiver and channel.
pub fn add_wires(out: &mut Text, g: &Global) -> Result<(), Memory>
    ensures { OnOk result (out.new ≡ out.old ++ flat_map (wires_from (setup_of g.now).shape.nodes (world_of g.now))
        (range_with_len 0 (setup_of g.now).shape.nodes)) }
{
    for number in 0..g.setup().shape().nodes() {
        let from = NodeId::new(number).unwrap();
        add_wires_from(out, g, from)?;
    }
    Ok(())
}
