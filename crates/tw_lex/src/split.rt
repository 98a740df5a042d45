ghost use Rattle.std.specs.Prelude.{◌≡◌, ◌+◌, ◌^◌, ◌++◌, ◌<◌, [], length, take, IfOk, OnOk};
ghost use Rattle.tw_base.specs.Answers.{Gives};
ghost use Rattle.std.specs.List.{position_or_len};
ghost use Rattle.tw_lex.specs.Bytes.{is_line_feed};
ghost use Rattle.tw_lex.specs.Lines.{is_memory, tokens_of, line_tokens, with_line, lexed};

use crate::bytes::{ends_code, is_blank, line_len, stop_len};
use crate::lexeme::lexeme;
use crate::token::{LexError, Lexed, Line, Token};
use std::alloc::Global;
use tw_base::{Listed, Memory};

// Puts the tokens of the code of a line, which begins at `start` in the text, on a list that is empty.
fn add_tokens(
    alloc: Global,
    number: u32,
    start: usize,
    code: &[u8],
    tokens: &mut Vec<Token>,
) -> Result<(), LexError>
    requires within { start + length code.now < 2 ^ 32 }
    requires empty { tokens.old.items ≡ [] }
    ensures { Gives is_memory (λ u. tokens.new.items) result (tokens_of number start code.now) }
{
    let mut at = 0;
    while at < code.len() {
        if is_blank(code[at]) {
            at += 1;
            continue;
        }
        let Some((what, len)) = lexeme(alloc, &code[at..])? else {
            return Err(LexError::BadToken { line: number });
        };
        let token = Token {
            start: (start + at) as u32,
            end: (start + at + len) as u32,
            what,
        };
        tokens.push(token)?;
        at += len;
    }
    Ok(())
}

// Puts the tokens of the first line on a list that is empty, and says how long the line is.
fn add_line_tokens(
    alloc: Global,
    number: u32,
    start: usize,
    text: &[u8],
    tokens: &mut Vec<Token>,
) -> Result<usize, LexError>
    requires within { start + length text.now < 2 ^ 32 }
    requires empty { tokens.old.items ≡ [] }
    ensures tokens { Gives is_memory (λ len. tokens.new.items) result
        (line_tokens number start (take (position_or_len is_line_feed text.now) text.now)) }
    ensures len { IfOk result (λ len. len ≡ position_or_len is_line_feed text.now) }
{
    let stop = stop_len(text);
    if stop < text.len() && !ends_code(text[stop]) {
        return Err(LexError::NotAscii { line: number });
    }
    add_tokens(alloc, number, start, &text[..stop], tokens)?;
    Ok(stop + line_len(&text[stop..]))
}

// Moves the tokens of a line into a list that has no room but for them. A line with no token is left out.
fn push_line(
    alloc: Global,
    list: &mut Vec<Line>,
    number: u32,
    tokens: &mut Vec<Token>,
) -> Result<(), Memory>
    ensures list { OnOk result (list.new.items ≡ list.old.items ++ with_line number tokens.old.items []) }
    ensures empty { OnOk result (tokens.new.items ≡ []) }
{
    if !tokens.is_empty() {
        let mut kept = Vec::with_capacity(alloc, tokens.len())?;
        kept.append(tokens)?;
        let tokens = Listed::of(kept);
        list.push(Line { number, tokens })?;
    }
    Ok(())
}

/// The lines of a text, or the first fault in it.
pub fn lines(alloc: Global, text: &[u8]) -> Result<Lexed, LexError>
    requires { length text.now + 1 < 2 ^ 32 }
    ensures { Gives is_memory (λ found. found) result (lexed text.now) }
{
    let mut list = Vec::new(alloc);
    let mut tokens = Vec::new(alloc);
    let mut all: u32 = 0;
    let mut start = 0;
    while start < text.len() {
        all += 1;
        let len = add_line_tokens(alloc, all, start, &text[start..], &mut tokens)?;
        push_line(alloc, &mut list, all, &mut tokens)?;
        start += len + 1;
    }
    Ok(Lexed {
        all,
        list: Listed::of(list),
    })
}
