ghost use Rattle.std.specs.Prelude.{◌≡◌, ◌++◌, IfOk, OnOk};
ghost use Rattle.dsm_model.specs.Globals.{setup_of, world_of};
ghost use Rattle.report_replay.specs.Texts.{head, replay_text};

use crate::blocks::add_blocks;
use crate::stands::add_nodes;
use crate::wires::add_wires;
use dsm_model::Global;
use printed_text::{Names, Text};
use std::alloc;
use tw_base::Memory;

fn add_head(out: &mut Text, k: u32, events: usize) -> Result<(), Memory>
    ensures { OnOk result (out.new ≡ out.old ++ head k events) }
{
    writeln!(out, "replay {k} of {events}")
}

/// What is written of the state behind this many of the events of a report, which has so many.
#[tactic(auto, unfolding(crate::specs::Texts::replay_text))]
pub fn replay_text(
    alloc: alloc::Global,
    g: &Global,
    k: u32,
    events: usize,
) -> Result<Vec<u8>, Memory>
    ensures { IfOk result (λ text. text.items ≡ replay_text (setup_of g.now) (world_of g.now) k events) }
{
    let names = Names::new(alloc, g.setup().protocol().protocol())?;
    let mut out = Text::new(alloc);
    add_head(&mut out, k, events)?;
    add_nodes(&mut out, g)?;
    add_blocks(&mut out, &names, g)?;
    add_wires(&mut out, g)?;
    out.add(b"end\n")?;
    Ok(out.into_vec())
}
