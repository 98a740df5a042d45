ghost use Rattle.std.specs.Prelude.{◌≡◌, ◌++◌, OnOk};
ghost use Rattle.std.specs.List.{flat_map, enumerate_from};
ghost use Rattle.printed_text.specs.Lines.{spaced};
ghost use Rattle.journal.specs.Reports.{count_line, node_line, outcome_words, register_line, register_lines, word_line};

use crate::Final;
use dsm_runs::Outcome;
use printed_text::{Names, Text, add_failure, trap_text};
use tw_base::Memory;

fn add_word(out: &mut Text, address: usize, value: u64) -> Result<(), Memory>
    ensures { OnOk result (out.new ≡ out.old ++ word_line (address, value)) }
{
    if value != 0 {
        writeln!(out, "word {address} {value}")?;
    }
    Ok(())
}

/// A line for each word that is not 0.
pub fn add_words(out: &mut Text, words: &[u64]) -> Result<(), Memory>
    ensures { OnOk result (out.new ≡ out.old ++ flat_map word_line (enumerate_from 0 words.now)) }
{
    for (address, value) in words.iter().enumerate() {
        add_word(out, address, *value)?;
    }
    Ok(())
}

fn add_register(out: &mut Text, node: usize, register: usize, value: u64) -> Result<(), Memory>
    ensures { OnOk result (out.new ≡ out.old ++ register_line node (register, value)) }
{
    if value != 0 {
        writeln!(out, "register {node} {register} {value}")?;
    }
    Ok(())
}

fn add_registers(out: &mut Text, node: usize, regs: &[u64]) -> Result<(), Memory>
    ensures { OnOk result (out.new ≡ out.old ++ flat_map (register_line node) (enumerate_from 0 regs.now)) }
{
    for (register, value) in regs.iter().enumerate() {
        add_register(out, node, register, *value)?;
    }
    Ok(())
}

/// A line for each register that is not 0.
pub fn add_all_registers(out: &mut Text, finals: &[Final]) -> Result<(), Memory>
    ensures { OnOk result (out.new ≡ out.old ++ flat_map register_lines (enumerate_from 0 finals.now)) }
{
    for (node, ended) in finals.iter().enumerate() {
        add_registers(out, node, &ended.cpu.regs)?;
    }
    Ok(())
}

/// How a node ended, behind a space.
pub fn add_outcome(out: &mut Text, names: &Names, outcome: Outcome) -> Result<(), Memory>
    ensures { OnOk result (out.new ≡ out.old ++ spaced (outcome_words names.now.protocol.now outcome)) }
{
    match outcome {
        Outcome::Halted => out.add(b" halted"),
        Outcome::Trapped(why) => {
            let trap = trap_text(why);
            write!(out, " trapped {trap}")
        }
        Outcome::Spent => out.add(b" spent"),
        Outcome::Stuck => out.add(b" stuck"),
        Outcome::Failed(how) => add_failure(out, names, how),
    }
}

fn add_node(out: &mut Text, names: &Names, node: usize, ended: &Final) -> Result<(), Memory>
    ensures { OnOk result (out.new ≡ out.old ++ node_line names.now.protocol.now (node, ended.now)) }
{
    write!(out, "node {node}")?;
    add_outcome(out, names, ended.outcome)?;
    let (place, instructions, handled) = (ended.cpu.place, ended.instructions, ended.handled);
    writeln!(
        out,
        " place {place} instructions {instructions} handlers {handled}"
    )
}

/// A line for each node: how it ended.
pub fn add_nodes(out: &mut Text, names: &Names, finals: &[Final]) -> Result<(), Memory>
    ensures { OnOk result (out.new ≡ out.old ++ flat_map (node_line names.now.protocol.now) (enumerate_from 0 finals.now)) }
{
    for (node, ended) in finals.iter().enumerate() {
        add_node(out, names, node, ended)?;
    }
    Ok(())
}

fn add_count(out: &mut Text, node: usize, ended: &Final) -> Result<(), Memory>
    ensures { OnOk result (out.new ≡ out.old ++ count_line (node, ended.now)) }
{
    let (ops, records) = (ended.ops, ended.records);
    writeln!(out, "counts {node} ops {ops} records {records}")
}

/// A line of counts for each node.
pub fn add_counts(out: &mut Text, finals: &[Final]) -> Result<(), Memory>
    ensures { OnOk result (out.new ≡ out.old ++ flat_map count_line (enumerate_from 0 finals.now)) }
{
    for (node, ended) in finals.iter().enumerate() {
        add_count(out, node, ended)?;
    }
    Ok(())
}
