ghost use Rattle.std.specs.Prelude.{◌≡◌, ◌≤◌, [], ◌∷◌, length, drop, IfOk};
ghost use Rattle.tw_base.specs.Answers.{Gives};
ghost use Rattle.mini_asm.specs.Spelling.{number_at};
ghost use Rattle.report_reader.specs.Reading.{behind, front, history_in, is_memory, is_number, is_of, misfit, numbered};
ghost use Rattle.report_reader.specs.Reading.{past_counts, past_head, past_nodes, read_in, report_with, stretch, told_in};

use crate::form::{is_head, is_line};
use crate::lines::{copy_line, copy_lines};
use crate::{AuditError, AuditRule, LineKind, Printed};
use std::alloc::Global;
use tw_base::{Memory, Shape};
use tw_lex::{Line, Token, What};

const EVENT_KINDS: [LineKind; 4] = [
    LineKind::Completed,
    LineKind::Fault,
    LineKind::Redelivered,
    LineKind::Delivered,
];

// The next line does not fit.
fn misfit(lines: &[Line], after: u32) -> AuditError
    ensures { result ≡ misfit after lines.now }
{
    let line = match lines {
        [line, ..] => line.number,
        [] => after,
    };
    AuditError::Denied {
        line,
        rule: AuditRule::BadLine,
    }
}

fn is_of(shape: Shape, wanted: &[LineKind], before: u64, tokens: &[Token]) -> bool
    ensures { result ≡ is_of shape wanted.now before tokens.now }
{
    for kind in wanted {
        if is_line(shape, *kind, before, tokens) {
            return true;
        }
    }
    false
}

// How many lines at the front are of these kinds.
fn stretch(shape: Shape, wanted: &[LineKind], lines: &[Line]) -> usize
    ensures value { result ≡ stretch shape wanted.now 0 lines.now }
    ensures within { result ≤ length lines.now }
{
    for (before, line) in lines.iter().enumerate() {
        if !is_of(shape, wanted, before as u64, line.tokens.items()) {
            return before;
        }
    }
    lines.len()
}

// The lines at the front that are of these kinds, and the ones behind them.
fn parted<'a>(shape: Shape, wanted: &[LineKind], lines: &'a [Line]) -> (&'a [Line], &'a [Line])
    ensures front { result.0.now ≡ front shape wanted.now lines.now }
    ensures behind { result.1.now ≡ behind shape wanted.now lines.now }
{
    lines.split_at(stretch(shape, wanted, lines))
}

// The first line has to be there: how many lines it is.
#[tactic(auto, unfolding(crate::specs::Reading::past_head))]
fn head_len(version: u8, shape: Shape, lines: &[Line], after: u32) -> Result<usize, AuditError>
    ensures value { Gives is_memory (λ n. drop n lines.now) result (past_head version shape after lines.now) }
    ensures within { IfOk result (λ n. n ≤ length lines.now) }
{
    match lines {
        [line, ..] if is_head(version, shape, line.tokens.items()) => Ok(1),
        _ => Err(misfit(lines, after)),
    }
}

// There has to be a line of each node.
#[tactic(auto, unfolding(crate::specs::Reading::past_nodes))]
fn nodes_len(shape: Shape, lines: &[Line], after: u32) -> Result<usize, AuditError>
    ensures value { Gives is_memory (λ n. drop n lines.now) result (past_nodes shape after lines.now) }
    ensures found { IfOk result (λ n. n ≡ stretch shape (LineKind.Node ∷ []) 0 lines.now) }
    ensures within { IfOk result (λ n. n ≤ length lines.now) }
{
    let found = stretch(shape, &[LineKind::Node], lines);
    if found == usize::from(shape.nodes()) {
        Ok(found)
    } else {
        Err(misfit(lines.split_at(found).1, after))
    }
}

// There have to be counts of each node, or of none.
#[tactic(auto, unfolding(crate::specs::Reading::past_counts))]
fn counts_len(shape: Shape, lines: &[Line], after: u32) -> Result<usize, AuditError>
    ensures value { Gives is_memory (λ n. drop n lines.now) result (past_counts shape after lines.now) }
    ensures within { IfOk result (λ n. n ≤ length lines.now) }
{
    let found = stretch(shape, &[LineKind::Counts], lines);
    if found == 0 || found == usize::from(shape.nodes()) {
        Ok(found)
    } else {
        Err(misfit(lines.split_at(found).1, after))
    }
}

// The line of the history, behind which only `end` stands.
#[tactic(auto, unfolding(crate::specs::Reading::history_in))]
fn history(shape: Shape, lines: &[Line], after: u32) -> Result<&Line, AuditError>
    ensures { Gives is_memory (λ line. line.now) result (history_in shape after lines.now) }
{
    let [history, rest @ ..] = lines else {
        return Err(misfit(lines, after));
    };
    if !is_line(shape, LineKind::History, 0, history.tokens.items()) {
        return Err(misfit(lines, after));
    }
    let [end, more @ ..] = rest else {
        return Err(misfit(rest, after));
    };
    if !is_line(shape, LineKind::End, 0, end.tokens.items()) {
        return Err(misfit(rest, after));
    }
    if more.is_empty() {
        Ok(history)
    } else {
        Err(misfit(more, after))
    }
}

fn number_at(tokens: &[Token], i: usize) -> Option<u64>
    ensures { result ≡ number_at tokens.now i }
{
    match tokens.get(i) {
        Some(token) => match &token.what {
            What::Number(n) => Some(*n),
            _ => None,
        },
        None => None,
    }
}

// Whether an event says that it is of this number.
fn is_event(number: usize, tokens: &[Token]) -> bool
    ensures { result ≡ is_number number (number_at tokens.now 1) }
{
    match number_at(tokens, 1) {
        Some(n) => n == number as u64,
        None => false,
    }
}

// How many events there are, numbered from 0 in order.
fn numbered(events: &[Line]) -> Result<usize, AuditError>
    ensures { Gives is_memory (λ n. n) result (numbered 0 events.now) }
{
    for (number, line) in events.iter().enumerate() {
        if !is_event(number, line.tokens.items()) {
            return Err(AuditError::Denied {
                line: line.number,
                rule: AuditRule::BadNumber,
            });
        }
    }
    Ok(events.len())
}

// Makes a report of its lines.
fn report_with(
    alloc: Global,
    prints: &[Line],
    words: &[Line],
    registers: &[Line],
    nodes: &[Line],
    events: &[Line],
    history: &Line,
) -> Result<Printed, Memory>
    ensures { IfOk result (λ p. p ≡ report_with prints.now words.now registers.now nodes.now events.now history.now) }
{
    Ok(Printed {
        prints: copy_lines(alloc, prints)?,
        words: copy_lines(alloc, words)?,
        registers: copy_lines(alloc, registers)?,
        nodes: copy_lines(alloc, nodes)?,
        events: copy_lines(alloc, events)?,
        history: copy_line(alloc, history)?,
    })
}

// What stands behind the first line.
fn told_in(alloc: Global, shape: Shape, lines: &[Line], after: u32) -> Result<Printed, AuditError>
    ensures { Gives is_memory (λ p. p) result (told_in shape after lines.now) }
{
    let (prints, from_words) = parted(shape, &[LineKind::Print], lines);
    let (words, from_registers) = parted(shape, &[LineKind::Word], from_words);
    let (registers, from_nodes) = parted(shape, &[LineKind::Register], from_registers);
    let count = nodes_len(shape, from_nodes, after)?;
    let (nodes, from_counts) = from_nodes.split_at(count);
    let skipped = counts_len(shape, from_counts, after)?;
    let (_, from_events) = from_counts.split_at(skipped);
    let (events, ending) = parted(shape, &EVENT_KINDS, from_events);
    let history = history(shape, ending, after)?;
    numbered(events)?;
    let report = report_with(alloc, prints, words, registers, nodes, events, history)?;
    Ok(report)
}

/// The lines of a report of a machine of this version and shape, or the first that is at fault: a line that does not have
/// the form of its place, or an event that is not numbered by its place. A missing line is at `after`.
#[tactic(auto, unfolding(crate::specs::Reading::read_in))]
pub fn read_lines(
    alloc: Global,
    version: u8,
    shape: Shape,
    lines: &[Line],
    after: u32,
) -> Result<Printed, AuditError>
    ensures { Gives is_memory (λ p. p) result (read_in version shape after lines.now) }
{
    let skipped = head_len(version, shape, lines, after)?;
    let (_, rest) = lines.split_at(skipped);
    told_in(alloc, shape, rest, after)
}
