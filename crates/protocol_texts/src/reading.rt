ghost use Rattle.std.specs.Prelude.{◌≡◌, ◌+◌, ◌^◌, ◌<◌, length, IfOk, Ok, Some};
ghost use Rattle.tw_lex.specs.Lines.{lexed};
ghost use Rattle.protocol_texts.specs.Texts.{IsAcceptedText, protocol_of};

use std::alloc::Global;
use teapot_check::{CheckError, check};
use teapot_parse::{ParseError, parse};
use teapot_tree::{Checked, Protocol};
use tw_base::Memory;
use tw_lex::{LexError, Lexed, lines};

// The lines of the text: it has no fault.
fn text_lines(alloc: Global, text: &[u8]) -> Result<Lexed, Memory>
    requires room { length text.now + 1 < 2 ^ 32 }
    requires accepted { IsAcceptedText text.now }
    ensures { IfOk result (λ found. lexed text.now ≡ Ok found) }
{
    match lines(alloc, text) {
        Ok(found) => Ok(found),
        Err(LexError::Memory) => Err(Memory),
        Err(LexError::NotAscii { line: _ }) => unreachable!(),
        Err(LexError::BadToken { line: _ }) => unreachable!(),
    }
}

// The tree of the text: its lines are read.
fn text_tree(alloc: Global, text: &[u8]) -> Result<Protocol, Memory>
    requires room { length text.now + 1 < 2 ^ 32 }
    requires accepted { IsAcceptedText text.now }
    ensures { IfOk result (λ p. protocol_of text.now ≡ Some p) }
{
    let found = text_lines(alloc, text)?;
    match parse(alloc, found.list, found.all) {
        Ok(protocol) => Ok(protocol),
        Err(ParseError::Memory) => Err(Memory),
        Err(ParseError::BadLine { line: _ }) => unreachable!(),
        Err(ParseError::BadNest { line: _ }) => unreachable!(),
        Err(ParseError::TooMany { what: _, line: _ }) => unreachable!(),
    }
}

/// The protocol of a text that is known to be an accepted one's: it is answered, or memory ran out.
pub fn accepted_protocol(alloc: Global, text: &[u8]) -> Result<Checked, Memory>
    requires room { length text.now + 1 < 2 ^ 32 }
    requires accepted { IsAcceptedText text.now }
    ensures { IfOk result (λ c. protocol_of text.now ≡ Some c) }
{
    let protocol = text_tree(alloc, text)?;
    match check(alloc, protocol) {
        Ok(checked) => Ok(checked),
        Err(CheckError::Memory) => Err(Memory),
        Err(CheckError::Broken { line: _, rule: _ }) => unreachable!(),
    }
}
