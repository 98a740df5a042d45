ghost use Rattle.std.specs.Prelude.{◌≡◌, IfOk};
ghost use Rattle.report_reader.specs.Reading.{printed, printed_line};

use std::alloc::Global;
use tw_base::{Listed, Memory};
use tw_lex::{Line, Token, What};

/// A line of a report: its number in the text, and its tokens.
#[derive(Debug, Drop)]
pub struct PrintedLine {
    pub line: u32,
    pub tokens: Listed<Token>,
}

/// The lines of a report by their kinds, in order. There is one of each node.
#[derive(Debug, Drop)]
pub struct Printed {
    pub prints: Listed<PrintedLine>,
    pub words: Listed<PrintedLine>,
    pub registers: Listed<PrintedLine>,
    pub nodes: Listed<PrintedLine>,
    pub events: Listed<PrintedLine>,
    pub history: PrintedLine,
}

fn what_copy(alloc: Global, what: &What) -> Result<What, Memory>
    ensures { IfOk result (λ copy. copy ≡ what.now) }
{
    match what {
        What::Word(word) => Ok(What::Word(word.copy(alloc)?)),
        What::Number(number) => Ok(What::Number(*number)),
        What::Mark(mark) => Ok(What::Mark(*mark)),
    }
}

fn token_copy(alloc: Global, token: &Token) -> Result<Token, Memory>
    ensures { IfOk result (λ copy. copy ≡ token.now) }
{
    let what = what_copy(alloc, &token.what)?;
    Ok(Token {
        start: token.start,
        end: token.end,
        what,
    })
}

fn tokens_copy(alloc: Global, tokens: &[Token]) -> Result<Listed<Token>, Memory>
    ensures { IfOk result (λ copy. copy ≡ tokens.now) }
{
    let mut copy = Listed::new(alloc);
    for token in tokens {
        copy.push(token_copy(alloc, token)?)?;
    }
    Ok(copy)
}

pub fn copy_line(alloc: Global, line: &Line) -> Result<PrintedLine, Memory>
    ensures { IfOk result (λ copy. copy ≡ printed_line line.now) }
{
    let tokens = tokens_copy(alloc, line.tokens.items())?;
    Ok(PrintedLine {
        line: line.number,
        tokens,
    })
}

pub fn copy_lines(alloc: Global, lines: &[Line]) -> Result<Listed<PrintedLine>, Memory>
    ensures { IfOk result (λ copy. copy ≡ printed lines.now) }
{
    let mut copy = Listed::new(alloc);
    for line in lines {
        copy.push(copy_line(alloc, line)?)?;
    }
    Ok(copy)
}
