ghost use Rattle.std.specs.Prelude.{◌≡◌, ◌<◌, ◌++◌, length, slice_get, IfOk, OnOk};
ghost use Rattle.std.specs.List.{flat_map, enumerate_from};
ghost use Rattle.report_audit.specs.Lines.{all_registers_due, first_other, register_due, registers_due, word_due, words_due};

use crate::due::{Due, is_due};
use mini_asm::Flat;
use report_reader::PrintedLine;
use std::alloc::Global;
use tw_base::{Listed, Memory, NodeId};

fn add_word(due: &mut Listed<Due>, address: usize, value: u64) -> Result<(), Memory>
    ensures { OnOk result (due.new ≡ due.old ++ word_due (address, value)) }
{
    if value != 0 {
        let address = address as u64;
        due.push(Due::Word { address, value })?;
    }
    Ok(())
}

/// The lines of the words of memory that are not 0.
pub fn words_due(alloc: Global, flat: &Flat) -> Result<Listed<Due>, Memory>
    ensures { IfOk result (λ due. due ≡ words_due flat.now) }
{
    let mut due = Listed::new(alloc);
    let words = flat.words();
    for (address, value) in words.iter().enumerate() {
        add_word(&mut due, address, *value)?;
    }
    Ok(due)
}

fn add_register(due: &mut Listed<Due>, node: u64, register: usize, value: u64) -> Result<(), Memory>
    ensures { OnOk result (due.new ≡ due.old ++ register_due node (register, value)) }
{
    if value != 0 {
        let register = register as u64;
        due.push(Due::Register {
            node,
            register,
            value,
        })?;
    }
    Ok(())
}

fn add_regs(due: &mut Listed<Due>, node: u64, regs: &[u64]) -> Result<(), Memory>
    ensures { OnOk result (due.new ≡ due.old ++ flat_map (register_due node) (enumerate_from 0 regs.now)) }
{
    for (register, value) in regs.iter().enumerate() {
        add_register(due, node, register, *value)?;
    }
    Ok(())
}

fn add_registers(due: &mut Listed<Due>, flat: &Flat, node: NodeId) -> Result<(), Memory>
    requires { node < length flat.now.cores }
    ensures { OnOk result (due.new ≡ due.old ++ registers_due flat.now node) }
{
    add_regs(due, u64::from(node.get()), &flat.cpu(node).regs)
}

/// The lines of the registers of this many nodes that are not 0.
pub fn registers_due(alloc: Global, nodes: u8, flat: &Flat) -> Result<Listed<Due>, Memory>
    requires count { nodes ≡ length flat.now.cores }
    requires few { nodes < 9 }
    ensures { IfOk result (λ due. due ≡ all_registers_due nodes flat.now) }
{
    let mut due = Listed::new(alloc);
    for number in 0..nodes {
        let node = NodeId::new(number).unwrap();
        add_registers(&mut due, flat, node)?;
    }
    Ok(due)
}

fn due_at(due: &[Due], at: usize) -> Option<Due>
    ensures { result ≡ slice_get due.now at }
{
    due.get(at).copied()
}

/// The first line that differs from the one that is due at its place. Where all agree and more are due, it is `next`.
pub fn first_other(due: &[Due], lines: &[PrintedLine], next: u32) -> Option<u32>
    ensures { result ≡ first_other due.now lines.now next }
{
    for (at, line) in lines.iter().enumerate() {
        if !is_due(due_at(due, at), line.tokens.items()) {
            return Some(line.line);
        }
    }
    if due.len() > lines.len() {
        Some(next)
    } else {
        None
    }
}
