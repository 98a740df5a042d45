ghost use Rattle.std.specs.Prelude.{◌≡◌, IfOk};
ghost use Rattle.tw_lex.specs.Lexemes.{number_of, pair_mark, single_mark, mark_at, lexeme};

use crate::bytes::{is_digit, is_word_start, word_len};
use crate::token::{Mark, What};
use std::alloc::Global;
use tw_base::{Memory, Name};

/// The number that the bytes stand for: None where a byte is no digit or the value is not below 2^64. No digits are 0.
pub fn number_of(run: &[u8]) -> Option<u64>
    ensures { result ≡ number_of run.now }
{
    let mut value: u64 = 0;
    for byte in run {
        if !is_digit(*byte) {
            return None;
        }
        let digit = u64::from(*byte - b'0');
        if value > (u64::MAX - digit) / 10 {
            return None;
        }
        value = 10 * value + digit;
    }
    Some(value)
}

fn pair_mark(first: u8, second: u8) -> Option<Mark>
    ensures { result ≡ pair_mark first second }
{
    match (first, second) {
        (b':', b'=') => Some(Mark::Becomes),
        (b'<', b'>') => Some(Mark::Unequal),
        (b'<', b'=') => Some(Mark::LessEqual),
        _ => None,
    }
}

fn single_mark(byte: u8) -> Option<Mark>
    ensures { result ≡ single_mark byte }
{
    match byte {
        b'(' => Some(Mark::Open),
        b')' => Some(Mark::Close),
        b'{' => Some(Mark::BraceOpen),
        b'}' => Some(Mark::BraceClose),
        b',' => Some(Mark::Comma),
        b';' => Some(Mark::Semicolon),
        b':' => Some(Mark::Colon),
        b'+' => Some(Mark::Plus),
        b'-' => Some(Mark::Minus),
        b'=' => Some(Mark::Equal),
        b'<' => Some(Mark::Less),
        b'&' => Some(Mark::Both),
        b'|' => Some(Mark::Either),
        _ => None,
    }
}

fn mark_at(bytes: &[u8]) -> Option<(What, usize)>
    ensures { result ≡ mark_at bytes.now }
{
    let first = *bytes.first()?;
    if bytes.len() > 1 {
        if let Some(mark) = pair_mark(first, bytes[1]) {
            return Some((What::Mark(mark), 2));
        }
    }
    Some((What::Mark(single_mark(first)?), 1))
}

/// The longest token at the front, and how many bytes it takes.
#[tactic(auto, unfolding(crate::specs::Lexemes::lexeme))]
pub fn lexeme(alloc: Global, bytes: &[u8]) -> Result<Option<(What, usize)>, Memory>
    ensures { IfOk result (λ found. found ≡ lexeme bytes.now) }
{
    let Some(first) = bytes.first() else {
        return Ok(None);
    };
    if is_word_start(*first) {
        let run = &bytes[..word_len(bytes)];
        if run.len() > 64 {
            return Ok(None);
        }
        return Ok(Some((What::Word(Name::new(alloc, run)?), run.len())));
    }
    if is_digit(*first) {
        let run = &bytes[..word_len(bytes)];
        return Ok(number_of(run).map(|n| (What::Number(n), run.len())));
    }
    Ok(mark_at(bytes))
}
