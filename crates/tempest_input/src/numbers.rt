ghost use Rattle.std.specs.Prelude.{◌≡◌, ◌<◌, ◌≤◌, OnOk};
ghost use Rattle.tw_base.specs.Answers.{Gives};
ghost use Rattle.tw_base.specs.Shape.{Sizes, IsWithinLimits};
ghost use Rattle.tempest_input.specs.Layout.{is_memory};
ghost use Rattle.tempest_input.specs.Numbers.{unless, is_within, is_budget, budget_or, sizes_of, is_given, word_in, words_of};
ghost use Rattle.tempest_input.specs.Numbers.{has_program, node_in, nodes_of};

use crate::error::{InputError, Why};
use crate::layout::{Init, Layout, Numbered, Section};
use std::alloc::Global;
use tw_base::Shape;

const DEFAULT_BUDGET: u64 = 4000;

const MAX_HANDLED: u64 = 1_250_000;

fn unless(holds: bool, line: u32, why: Why) -> Result<(), InputError>
    ensures { result ≡ unless holds line why }
{
    if holds {
        Ok(())
    } else {
        Err(InputError::Refused { line, why })
    }
}

fn is_within(least: u64, most: u64, number: u64) -> bool
    ensures { result ≡ is_within least most number }
{
    least <= number && number <= most
}

fn is_budget(nodes: u64, budget: u64) -> bool
    requires some { 1 ≤ nodes }
    requires few { nodes ≤ 8 }
    ensures { result ≡ is_budget nodes budget }
{
    0 < budget && budget <= MAX_HANDLED && (4 * nodes + 4) * nodes * budget <= MAX_HANDLED
}

fn budget_or(blocks: Numbered, budget: Option<Numbered>) -> Numbered
    ensures { result ≡ budget_or blocks budget }
{
    match budget {
        Some(budget) => budget,
        None => Numbered {
            line: blocks.line,
            value: DEFAULT_BUDGET,
        },
    }
}

/// The shape of the machine.
#[tactic(auto, unfolding(crate::specs::Numbers::sizes_of))]
pub fn shape_of(layout: &Layout) -> Result<Shape, InputError>
    ensures value { result ≡ sizes_of layout.now }
    ensures version { OnOk result ((0 < layout.now.version.value) × (layout.now.version.value ≤ 2)) }
{
    let (version, nodes) = (layout.version, layout.nodes);
    let (words, blocks) = (layout.words, layout.blocks);
    unless(
        is_within(1, 2, version.value),
        version.line,
        Why::OutOfRange,
    )?;
    unless(is_within(1, 8, nodes.value), nodes.line, Why::OutOfRange)?;
    unless(is_within(1, 8, words.value), words.line, Why::OutOfRange)?;
    unless(is_within(1, 64, blocks.value), blocks.line, Why::OutOfRange)?;
    let budget = budget_or(blocks, layout.budget);
    unless(
        is_budget(nodes.value, budget.value),
        budget.line,
        Why::OutOfRange,
    )?;
    let (nodes, words) = (nodes.value as u8, words.value as u8);
    let (blocks, budget) = (blocks.value as u8, budget.value as u32);
    Ok(Shape::new(nodes, words, blocks, budget).unwrap())
}

fn is_given(done: &[(u32, u64)], address: u64) -> bool
    ensures { result ≡ is_given done.now address }
{
    done.iter().any(|given| u64::from(given.0) == address)
}

#[tactic(auto, unfolding(crate::specs::Numbers::word_in))]
fn word_in(size: u32, done: &[(u32, u64)], init: &Init) -> Result<(u32, u64), InputError>
    ensures { result ≡ word_in size done.now init.now }
{
    unless(init.address < u64::from(size), init.line, Why::OutOfRange)?;
    unless(!is_given(done, init.address), init.line, Why::Repeated)?;
    Ok((init.address as u32, init.value))
}

/// The words at the start, by address, in a memory of `size` words.
pub fn words_of(alloc: Global, size: u32, inits: &[Init]) -> Result<Vec<(u32, u64)>, InputError>
    ensures { Gives is_memory (λ v. v.items) result (words_of size inits.now) }
{
    let mut done = Vec::new(alloc);
    for init in inits {
        done.push(word_in(size, &done, init)?)?;
    }
    Ok(done)
}

fn has_program(done: &[u8], node: u64) -> bool
    ensures { result ≡ has_program done.now node }
{
    done.iter().any(|other| u64::from(*other) == node)
}

#[tactic(auto, unfolding(crate::specs::Numbers::node_in))]
fn node_in(nodes: u8, done: &[u8], section: &Section) -> Result<u8, InputError>
    ensures { result ≡ node_in nodes done.now section.now }
{
    unless(
        section.node < u64::from(nodes),
        section.line,
        Why::OutOfRange,
    )?;
    unless(
        !has_program(done, section.node),
        section.line,
        Why::Repeated,
    )?;
    Ok(section.node as u8)
}

/// The nodes that have a program, in the order of the text, of a machine of `nodes`.
pub fn nodes_of(alloc: Global, nodes: u8, sections: &[Section]) -> Result<Vec<u8>, InputError>
    ensures { Gives is_memory (λ v. v.items) result (nodes_of nodes sections.now) }
{
    let mut done = Vec::new(alloc);
    for section in sections {
        done.push(node_in(nodes, &done, section)?)?;
    }
    Ok(done)
}
