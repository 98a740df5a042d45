ghost use Rattle.std.specs.Prelude.{◌≡◌, length, IfOk};
ghost use Rattle.tw_base.specs.Answers.{Gives};
ghost use Rattle.report_reader.specs.Reading.{is_memory};
ghost use Rattle.report_audit.specs.Audits.{audited, from_nodes, from_registers, from_words, line_or, pass, wrong_history};
ghost use Rattle.report_audit.specs.Audits.{wrong_print, wrong_register, wrong_word};
ghost use Rattle.report_audit.specs.Nodes.{wrong_node};
ghost use Rattle.report_reader.specs.declared.error.AuditRule.TheVariants.{WrongPrint, WrongWord, WrongRegister, WrongNode};
ghost use Rattle.report_reader.specs.declared.error.AuditRule.TheVariants.{WrongHistory};

use crate::execute::{Executed, completed, execute};
use crate::lines::{first_other, registers_due, words_due};
use crate::nodes::wrong_node;
use dsm_runs::Setup;
use mini_asm::Flat;
use printed_lines::{Said, says};
use report_reader::{AuditError, AuditRule, Printed, PrintedLine};
use std::alloc::Global;
use tw_base::Memory;

/// A report that is explained: how many events it has, and how many of them are instructions that completed.
#[derive(Clone, Copy, Debug, PartialEq, Eq)]
pub struct Audited {
    pub events: u32,
    pub completed: u32,
}

// A number of lines, of which no memory holds 2^32.
fn counted(count: usize) -> Result<u32, Memory>
    ensures { IfOk result (λ n. n ≡ count) }
{
    if count <= u32::MAX as usize {
        Ok(count as u32)
    } else {
        Err(Memory)
    }
}

// Denies a line at fault.
fn pass(rule: AuditRule, wrong: Option<u32>) -> Result<(), AuditError>
    ensures { result ≡ pass rule wrong }
{
    match wrong {
        Some(line) => Err(AuditError::Denied { line, rule }),
        None => Ok(()),
    }
}

fn line_or(lines: &[PrintedLine], other: u32) -> u32
    ensures { result ≡ line_or lines.now other }
{
    match lines {
        [line, ..] => line.line,
        [] => other,
    }
}

fn from_nodes(report: &Printed) -> u32
    ensures { result ≡ from_nodes report.now }
{
    line_or(report.nodes.items(), report.history.line)
}

fn from_registers(report: &Printed) -> u32
    ensures { result ≡ from_registers report.now }
{
    line_or(report.registers.items(), from_nodes(report))
}

fn from_words(report: &Printed) -> u32
    ensures { result ≡ from_words report.now }
{
    line_or(report.words.items(), from_registers(report))
}

fn pass_prints(done: &Executed, report: &Printed) -> Result<(), AuditError>
    ensures { Gives is_memory (λ u. u) result (pass WrongPrint (wrong_print done.now report.now)) }
{
    let (due, lines) = (done.prints.items(), report.prints.items());
    pass(
        AuditRule::WrongPrint,
        first_other(due, lines, from_words(report)),
    )
}

fn pass_words(alloc: Global, done: &Executed, report: &Printed) -> Result<(), AuditError>
    ensures { Gives is_memory (λ u. u) result (pass WrongWord (wrong_word done.now report.now)) }
{
    let due = words_due(alloc, &done.flat)?;
    let lines = report.words.items();
    pass(
        AuditRule::WrongWord,
        first_other(due.items(), lines, from_registers(report)),
    )
}

fn pass_registers(
    alloc: Global,
    setup: &Setup,
    done: &Executed,
    report: &Printed,
) -> Result<(), AuditError>
    requires { length done.now.flat.cores ≡ setup.now.shape.nodes }
    ensures { Gives is_memory (λ u. u) result (pass WrongRegister (wrong_register setup.now done.now report.now)) }
{
    let due = registers_due(alloc, setup.shape().nodes(), &done.flat)?;
    let lines = report.registers.items();
    pass(
        AuditRule::WrongRegister,
        first_other(due.items(), lines, from_nodes(report)),
    )
}

fn pass_nodes(setup: &Setup, flat: &Flat, report: &Printed) -> Result<(), AuditError>
    requires { length flat.now.cores ≡ setup.now.shape.nodes }
    ensures { Gives is_memory (λ u. u) result (pass WrongNode (wrong_node report.now.events flat.now report.now.nodes)) }
{
    let (events, lines) = (report.events.items(), report.nodes.items());
    pass(
        AuditRule::WrongNode,
        wrong_node(events, setup.shape().nodes(), flat, lines),
    )
}

fn wrong_history(report: &Printed) -> Option<u32>
    ensures { result ≡ wrong_history report.now }
{
    let agreement = [Said::Word(b"history"), Said::Word(b"agrees")];
    if says(&agreement, report.history.tokens.items()) {
        None
    } else {
        Some(report.history.line)
    }
}

/// Whether the flat machine explains a report: it executes the instructions that completed, in the order of the report. Denied
/// by the first rule that is broken, at its first line.
#[tactic(auto, unfolding(crate::specs::Audits::audited))]
pub fn audit(alloc: Global, setup: &Setup, report: &Printed) -> Result<Audited, AuditError>
    ensures { Gives is_memory (λ a. a) result (audited setup.now report.now) }
{
    let done = execute(alloc, setup, report.events.items())?;
    pass_prints(&done, report)?;
    pass_words(alloc, &done, report)?;
    pass_registers(alloc, setup, &done, report)?;
    pass_nodes(setup, &done.flat, report)?;
    pass(AuditRule::WrongHistory, wrong_history(report))?;
    let events = report.events.items();
    let (events, completed) = (counted(events.len())?, counted(completed(events))?);
    Ok(Audited { events, completed })
}
