ghost use Rattle.std.specs.Prelude.{◌≡◌, ◌++◌, drop, length, IfOk, IfSome, IfNone, OnOk, Some, None};
ghost use Rattle.tw_base.specs.Answers.{Gives};
ghost use Rattle.dsm_runs.specs.Flat.{flat_start, flat_step};
ghost use Rattle.report_reader.specs.Reading.{is_memory};
ghost use Rattle.printed_lines.specs.Saying.{says};
ghost use Rattle.printed_lines.specs.Tokens.{act_tokens, whats};
ghost use Rattle.report_audit.specs.Executing.{begun, completed, executed, executed_as, executed_at, is_completed};
ghost use Rattle.report_audit.specs.Executing.{line_executed, print_due};

use crate::due::Due;
use dsm_runs::Setup;
use mini_asm::Flat;
use printed_lines::{behind, kind_of, node_of, past_act, says_nothing};
use printed_text::Names;
use report_reader::{AuditError, AuditRule, LineKind, PrintedLine};
use std::alloc::Global;
use tw_base::{Act, Listed, Memory, NodeId};
use tw_lex::Token;

/// The flat machine behind some instructions, and the lines of what they printed.
#[derive(Debug, Drop)]
pub struct Executed {
    pub flat: Flat,
    pub prints: Listed<Due>,
}

fn is_completed(tokens: &[Token]) -> bool
    ensures { result ≡ is_completed tokens.now }
{
    matches!(kind_of(tokens), LineKind::Completed)
}

/// How many instructions completed.
pub fn completed(events: &[PrintedLine]) -> usize
    ensures { result ≡ completed events.now }
{
    events
        .iter()
        .filter(|line| is_completed(line.tokens.items()))
        .count()
}

// Executes the next instruction of a node, None where it has ended.
fn flat_step(flat: &mut Flat, node: NodeId) -> Option<Act>
    ensures value { IfSome result (λ act. flat_step flat.old node ≡ Some (act, flat.new)) }
    ensures none { IfNone result (flat_step flat.old node ≡ None) }
    ensures cores { length flat.new.cores ≡ length flat.old.cores }
{
    if flat.running(node) {
        Some(flat.step(node))
    } else {
        None
    }
}

fn start(alloc: Global, setup: &Setup) -> Result<Executed, Memory>
    ensures value { IfOk result (λ x. x ≡ begun setup.now) }
    ensures cores { IfOk result (λ x. length x.flat.cores ≡ setup.now.shape.nodes) }
{
    let (shape, init, programs) = (setup.shape(), setup.init(), setup.programs());
    Ok(Executed {
        flat: Flat::new(alloc, shape, init, programs)?,
        prints: Listed::new(alloc),
    })
}

fn wrong_act(line: &PrintedLine) -> AuditError
    ensures { result ≡ AuditError.Denied line.now.line AuditRule.WrongAct }
{
    AuditError::Denied {
        line: line.line,
        rule: AuditRule::WrongAct,
    }
}

// Whether a line says just this behind its node.
fn is_act(names: &Names, act: &Act, tokens: &[Token]) -> bool
    ensures { result ≡ says (act_tokens names.now.protocol.now act.now) (whats (drop 6 tokens.now)) }
{
    match past_act(names, *act, behind(tokens, 6)) {
        Some(rest) => says_nothing(rest),
        None => false,
    }
}

fn add_print(prints: &mut Listed<Due>, node: NodeId, act: &Act) -> Result<(), Memory>
    ensures { OnOk result (prints.new ≡ prints.old ++ print_due node act.now) }
{
    if let Act::Print { value } = *act {
        let node = u64::from(node.get());
        prints.push(Due::Print { node, value })?;
    }
    Ok(())
}

fn execute_next(
    names: &Names,
    done: &mut Executed,
    line: &PrintedLine,
    node: NodeId,
) -> Result<(), AuditError>
    ensures value { Gives is_memory (λ _. done.new) result (executed_as names.now.protocol.now done.old line.now node
        (flat_step done.old.flat node)) }
    ensures cores { length done.new.flat.cores ≡ length done.old.flat.cores }
{
    let Some(act) = flat_step(&mut done.flat, node) else {
        return Err(wrong_act(line));
    };
    if !is_act(names, &act, line.tokens.items()) {
        return Err(wrong_act(line));
    }
    add_print(&mut done.prints, node, &act)?;
    Ok(())
}

fn execute_at(
    names: &Names,
    done: &mut Executed,
    line: &PrintedLine,
    node: Option<NodeId>,
) -> Result<(), AuditError>
    ensures value { Gives is_memory (λ _. done.new) result (executed_at names.now.protocol.now done.old line.now node) }
    ensures cores { length done.new.flat.cores ≡ length done.old.flat.cores }
{
    match node {
        Some(node) => execute_next(names, done, line, node),
        None => Err(wrong_act(line)),
    }
}

// Executes the instruction that a line tells of, if it tells of one that completed.
#[tactic(auto, unfolding(crate::specs::Executing::line_executed))]
fn execute_line(names: &Names, done: &mut Executed, line: &PrintedLine) -> Result<(), AuditError>
    ensures value { Gives is_memory (λ _. done.new) result (line_executed names.now.protocol.now done.old line.now) }
    ensures cores { length done.new.flat.cores ≡ length done.old.flat.cores }
{
    if is_completed(line.tokens.items()) {
        execute_at(names, done, line, node_of(line.tokens.items()))
    } else {
        Ok(())
    }
}

/// Executes the instructions that completed, in the order of their lines.
pub fn execute(alloc: Global, setup: &Setup, events: &[PrintedLine]) -> Result<Executed, AuditError>
    ensures value { Gives is_memory (λ x. x) result (executed setup.now.protocol (begun setup.now) events.now) }
    ensures cores { IfOk result (λ x. length x.flat.cores ≡ setup.now.shape.nodes) }
{
    let names = Names::new(alloc, setup.protocol().protocol())?;
    let mut done = start(alloc, setup)?;
    for line in events {
        execute_line(&names, &mut done, line)?;
    }
    Ok(done)
}
