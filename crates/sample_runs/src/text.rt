ghost use Rattle.std.specs.Prelude.{◌≡◌, ◌++◌, IfOk, OnOk};
ghost use Rattle.std.specs.List.{flat_map, enumerate_from};
ghost use Rattle.sample_runs.specs.Summaries.{first_print, printed_by, sum_line, sum_of, summary_head, summary_node};
ghost use Rattle.sample_runs.specs.Summaries.{summary_under};

use crate::setup::rounds_of;
use dsm_runs::Setup;
use journal::{Break, Final, add_history, add_outcome};
use printed_text::{Names, Text};
use std::alloc::Global;
use tw_base::{Act, Entry, Memory};

/// What an entry printed, where it is of this node.
fn printed_by(node: usize, entry: &Entry) -> Option<u64>
    ensures { result ≡ printed_by node entry.now }
{
    if usize::from(entry.node.get()) != node {
        return None;
    }
    match entry.act {
        Act::Print { value } => Some(value),
        _ => None,
    }
}

/// The first value that a node printed, 0 where it printed none.
fn first_print(node: usize, journal: &[Entry]) -> u64
    ensures { result ≡ first_print node journal.now }
{
    for entry in journal {
        if let Some(value) = printed_by(node, entry) {
            return value;
        }
    }
    0
}

/// The sum of all words, as numbers of 64 bits.
fn sum_of(words: &[u64]) -> u64
    ensures { result ≡ sum_of words.now }
{
    let mut total = 0u64;
    for word in words {
        total = total.wrapping_add(*word);
    }
    total
}

fn add_head(out: &mut Text, number: u32) -> Result<(), Memory>
    ensures { OnOk result (out.new ≡ out.old ++ summary_head number) }
{
    let rounds = rounds_of(number);
    writeln!(out, "tempest sample {number} rounds {rounds}")
}

fn add_node(
    out: &mut Text,
    names: &Names,
    journal: &[Entry],
    node: usize,
    ended: &Final,
) -> Result<(), Memory>
    ensures { OnOk result (out.new ≡ out.old ++ summary_node names.now.protocol.now journal.now (node, ended.now)) }
{
    write!(out, "node {node}")?;
    add_outcome(out, names, ended.outcome)?;
    let value = first_print(node, journal);
    writeln!(out, " print {value}")
}

/// A line for each node.
fn add_nodes(
    out: &mut Text,
    names: &Names,
    journal: &[Entry],
    finals: &[Final],
) -> Result<(), Memory>
    ensures { OnOk result (out.new ≡ out.old ++ flat_map (summary_node names.now.protocol.now journal.now)
        (enumerate_from 0 finals.now)) }
{
    for (node, ended) in finals.iter().enumerate() {
        add_node(out, names, journal, node, ended)?;
    }
    Ok(())
}

fn add_sum(out: &mut Text, words: &[u64]) -> Result<(), Memory>
    ensures { OnOk result (out.new ≡ out.old ++ sum_line words.now) }
{
    let total = sum_of(words);
    writeln!(out, "sum {total}")
}

/// The summary of a run of the sample of this number, which `setup` is: how each node ended and what it printed first, the
/// sum of the words at the end, and the first break of its history.
#[tactic(auto, unfolding(crate::specs::Summaries::summary_under))]
pub fn summary(
    alloc: Global,
    setup: &Setup,
    number: u32,
    journal: &[Entry],
    finals: &[Final],
    words: &[u64],
    broken: Option<Break>,
) -> Result<Vec<u8>, Memory>
    ensures { IfOk result (λ text. text.items ≡ summary_under setup.now.protocol number journal.now finals.now words.now broken) }
{
    let names = Names::new(alloc, setup.protocol().protocol())?;
    let mut out = Text::new(alloc);
    add_head(&mut out, number)?;
    add_nodes(&mut out, &names, journal, finals)?;
    add_sum(&mut out, words)?;
    add_history(&mut out, broken)?;
    out.add(b"end\n")?;
    Ok(out.into_vec())
}
