ghost use Rattle.std.specs.Prelude.{◌≡◌, ◌++◌, OnOk, IfOk};
ghost use Rattle.std.specs.List.{flat_map, enumerate_from};
ghost use Rattle.journal.specs.Reports.{count_line, event_line, head, history_line, if_asked, node_line, report_of};

use crate::events::{add_events, add_prints};
use crate::node_lines::{add_all_registers, add_counts, add_nodes, add_words};
use crate::{Break, Final};
use dsm_runs::Setup;
use printed_text::{Names, Text};
use std::alloc::Global;
use tw_base::{Entry, Memory};

/// What a report has beside its nodes and its history.
#[derive(Clone, Copy, Debug, PartialEq, Eq)]
pub struct Options {
    /// A line for each event.
    pub journal: bool,
    /// A line of counts for each node.
    pub counts: bool,
}

fn add_head(out: &mut Text, setup: &Setup) -> Result<(), Memory>
    ensures { OnOk result (out.new ≡ out.old ++ head setup.now) }
{
    let (version, shape) = (setup.version(), setup.shape());
    let (nodes, words) = (shape.nodes(), shape.words());
    let (blocks, budget) = (shape.blocks(), shape.budget());
    writeln!(
        out,
        "tempest report {version} nodes {nodes} words {words} blocks {blocks} budget {budget}"
    )
}

fn add_asked_counts(out: &mut Text, asked: bool, finals: &[Final]) -> Result<(), Memory>
    ensures { OnOk result (out.new ≡ out.old ++ if_asked asked (flat_map count_line (enumerate_from 0 finals.now))) }
{
    if asked {
        add_counts(out, finals)
    } else {
        Ok(())
    }
}

fn add_asked_events(
    out: &mut Text,
    names: &Names,
    asked: bool,
    journal: &[Entry],
) -> Result<(), Memory>
    ensures { OnOk result (out.new ≡ out.old ++ if_asked asked
        (flat_map (event_line names.now.protocol.now) (enumerate_from 0 journal.now))) }
{
    if asked {
        add_events(out, names, journal)
    } else {
        Ok(())
    }
}

fn add_break(out: &mut Text, broken: Break) -> Result<(), Memory>
    ensures { OnOk result (out.new ≡ out.old ++ history_line (Some broken)) }
{
    let (event, node, address) = (broken.event, broken.node.get(), broken.address);
    let (read, due) = (broken.read, broken.due);
    writeln!(
        out,
        "history broken event {event} node {node} address {address} read {read} due {due}"
    )
}

/// The line of the history: that it agrees, or its first break.
pub fn add_history(out: &mut Text, broken: Option<Break>) -> Result<(), Memory>
    ensures { OnOk result (out.new ≡ out.old ++ history_line broken) }
{
    match broken {
        Some(broken) => add_break(out, broken),
        None => out.add(b"history agrees\n"),
    }
}

/// The report of a run: its journal, its nodes and its words at the end, and the first break of its history.
#[tactic(auto, unfolding(crate::specs::Reports::report_of))]
pub fn report(
    alloc: Global,
    setup: &Setup,
    journal: &[Entry],
    finals: &[Final],
    words: &[u64],
    broken: Option<Break>,
    options: Options,
) -> Result<Vec<u8>, Memory>
    ensures { IfOk result (λ text. text.items ≡ report_of setup.now journal.now finals.now words.now broken options) }
{
    let names = Names::new(alloc, setup.protocol().protocol())?;
    let mut out = Text::new(alloc);
    add_head(&mut out, setup)?;
    add_prints(&mut out, journal)?;
    add_words(&mut out, words)?;
    add_all_registers(&mut out, finals)?;
    add_nodes(&mut out, &names, finals)?;
    add_asked_counts(&mut out, options.counts, finals)?;
    add_asked_events(&mut out, &names, options.journal, journal)?;
    add_history(&mut out, broken)?;
    out.add(b"end\n")?;
    Ok(out.into_vec())
}
