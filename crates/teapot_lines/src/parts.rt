ghost use Rattle.std.specs.Prelude.{◌≡◌, map};
ghost use Rattle.std.specs.Option.{option_map};
ghost use Rattle.teapot_lines.specs.Seen.{seen};
ghost use Rattle.teapot_lines.specs.declared.parts.ReadError.TheVariants.{Memory as OutOfMemory};
ghost use Rattle.teapot_lines.specs.Reading.{read};
ghost use Rattle.teapot_lines.specs.Parts.{Reads, same_mark, past, ends, named, type_of, typed, tag_of, tagged, chan_of};
ghost use Rattle.teapot_lines.specs.Parts.{channel, param, answers, bracketed};

use crate::cut::Cut;
use crate::form::{Answers, Typed};
use crate::reader::read_expr;
use std::alloc::{AllocError, AllocFailed, Global};
use teapot_tree::{Keyword, ValType, keyword_of};
use tw_base::{Chan, Memory, Name, Tag};
use tw_lex::{Mark, Token, What};

#[derive(Clone, Copy, Debug, PartialEq, Eq, thiserror::Error)]
pub enum ReadError {
    /// The line is of no form.
    #[error("no form of a line")]
    Bad,
    #[error("out of memory")]
    Memory,
}

impl From<Memory> for ReadError {
    ghost from_gives = { λ _ e. e ≡ OutOfMemory };

    fn from(_: Memory) -> Self {
        ReadError::Memory
    }
}

impl From<AllocError> for ReadError {
    ghost from_gives = { λ _ e. e ≡ OutOfMemory };

    fn from(_: AllocError) -> Self {
        ReadError::Memory
    }
}

impl<T: Drop> From<AllocFailed<T>> for ReadError {
    ghost from_gives = { λ _ e. e ≡ OutOfMemory };

    fn from(_: AllocFailed<T>) -> Self {
        ReadError::Memory
    }
}

fn same_mark(a: Mark, b: Mark) -> bool
    ensures { result ≡ same_mark a b }
{
    a == b
}

/// The tokens past a mark that is to stand at the front.
#[tactic(auto, using(crate::proofs::Marks::word_is_no_mark))]
pub fn past(profile: u8, mark: Mark, tokens: &[Token]) -> Option<&[Token]>
    ensures { option_map (λ x. map (seen profile) x.now) result ≡ past mark (map (seen profile) tokens.now) }
{
    let (first, rest) = tokens.split_first()?;
    match &first.what {
        What::Mark(found) => {
            if same_mark(*found, mark) {
                Some(rest)
            } else {
                None
            }
        }
        What::Number(_) => None,
        What::Word(_) => None,
    }
}

/// The same, where the line is of no form without the mark.
pub fn want(profile: u8, mark: Mark, tokens: &[Token]) -> Result<&[Token], ReadError>
    ensures { Reads (λ x. map (seen profile) x.now) result (past mark (map (seen profile) tokens.now)) }
{
    match past(profile, mark, tokens) {
        Some(rest) => Ok(rest),
        None => Err(ReadError::Bad),
    }
}

/// Whether no item of a list can begin here.
#[tactic(auto, using(crate::proofs::Words::word_ends_no_list))]
pub fn ends(profile: u8, tokens: &[Token]) -> bool
    ensures { result ≡ ends (map (seen profile) tokens.now) }
{
    match tokens.split_first() {
        Some((first, _)) => match &first.what {
            What::Mark(Mark::Close) => true,
            What::Mark(Mark::BraceClose) => true,
            What::Mark(Mark::Semicolon) => true,
            What::Mark(_) => false,
            What::Number(_) => false,
            What::Word(_) => false,
        },
        None => true,
    }
}

pub fn named(alloc: Global, profile: u8, tokens: &[Token]) -> Result<(Name, &[Token]), ReadError>
    ensures { Reads (λ x. (x.0, map (seen profile) x.1.now)) result (named (map (seen profile) tokens.now)) }
{
    match tokens.split_first() {
        Some((first, rest)) => match &first.what {
            What::Word(name) => match keyword_of(profile, name.bytes()) {
                Some(_) => Err(ReadError::Bad),
                None => Ok((name.copy(alloc)?, rest)),
            },
            What::Number(_) => Err(ReadError::Bad),
            What::Mark(_) => Err(ReadError::Bad),
        },
        None => Err(ReadError::Bad),
    }
}

fn type_of(key: Keyword) -> Option<ValType>
    ensures { result ≡ type_of key }
{
    match key {
        Keyword::Int => Some(ValType::Int),
        Keyword::Bool => Some(ValType::Bool),
        Keyword::Node => Some(ValType::Node),
        Keyword::Set => Some(ValType::Set),
        _ => None,
    }
}

pub fn typed(profile: u8, tokens: &[Token]) -> Result<(ValType, &[Token]), ReadError>
    ensures { Reads (λ x. (x.0, map (seen profile) x.1.now)) result (typed (map (seen profile) tokens.now)) }
{
    match tokens.split_first() {
        Some((first, rest)) => match &first.what {
            What::Word(name) => match keyword_of(profile, name.bytes()) {
                Some(key) => match type_of(key) {
                    Some(ty) => Ok((ty, rest)),
                    None => Err(ReadError::Bad),
                },
                None => Err(ReadError::Bad),
            },
            What::Number(_) => Err(ReadError::Bad),
            What::Mark(_) => Err(ReadError::Bad),
        },
        None => Err(ReadError::Bad),
    }
}

fn tag_of(key: Keyword) -> Option<Tag>
    ensures { result ≡ tag_of key }
{
    match key {
        Keyword::Invalid => Some(Tag::Invalid),
        Keyword::ReadOnly => Some(Tag::ReadOnly),
        Keyword::ReadWrite => Some(Tag::ReadWrite),
        _ => None,
    }
}

pub fn tagged(profile: u8, tokens: &[Token]) -> Result<(Tag, &[Token]), ReadError>
    ensures { Reads (λ x. (x.0, map (seen profile) x.1.now)) result (tagged (map (seen profile) tokens.now)) }
{
    match tokens.split_first() {
        Some((first, rest)) => match &first.what {
            What::Word(name) => match keyword_of(profile, name.bytes()) {
                Some(key) => match tag_of(key) {
                    Some(tag) => Ok((tag, rest)),
                    None => Err(ReadError::Bad),
                },
                None => Err(ReadError::Bad),
            },
            What::Number(_) => Err(ReadError::Bad),
            What::Mark(_) => Err(ReadError::Bad),
        },
        None => Err(ReadError::Bad),
    }
}

fn chan_of(number: u64) -> Option<Chan>
    ensures { result ≡ chan_of number }
{
    match number {
        0 => Some(Chan::Zero),
        1 => Some(Chan::One),
        _ => None,
    }
}

/// A channel, 0 or 1.
#[tactic(auto, using(crate::proofs::Words::word_is_no_channel))]
pub fn channel(profile: u8, tokens: &[Token]) -> Result<(Chan, &[Token]), ReadError>
    ensures { Reads (λ x. (x.0, map (seen profile) x.1.now)) result (channel (map (seen profile) tokens.now)) }
{
    match tokens.split_first() {
        Some((first, rest)) => match &first.what {
            What::Word(_) => Err(ReadError::Bad),
            What::Number(number) => match chan_of(*number) {
                Some(chan) => Ok((chan, rest)),
                None => Err(ReadError::Bad),
            },
            What::Mark(_) => Err(ReadError::Bad),
        },
        None => Err(ReadError::Bad),
    }
}

pub fn param(alloc: Global, profile: u8, tokens: &[Token]) -> Result<(Typed, &[Token]), ReadError>
    ensures { Reads (λ x. (x.0, map (seen profile) x.1.now)) result (param (map (seen profile) tokens.now)) }
{
    let (name, rest) = named(alloc, profile, tokens)?;
    let (ty, rest) = typed(profile, rest)?;
    Ok((Typed { name, ty }, rest))
}

pub fn answers(
    alloc: Global,
    profile: u8,
    tokens: &[Token],
) -> Result<(Answers, &[Token]), ReadError>
    ensures { Reads (λ x. (x.0, map (seen profile) x.1.now)) result (answers (map (seen profile) tokens.now)) }
{
    match tokens.split_first() {
        Some((first, rest)) => match &first.what {
            What::Word(name) => match keyword_of(profile, name.bytes()) {
                Some(Keyword::RdFault) => Ok((Answers::RdFault, rest)),
                Some(Keyword::WrFault) => Ok((Answers::WrFault, rest)),
                Some(_) => Err(ReadError::Bad),
                None => Ok((Answers::Named(name.copy(alloc)?), rest)),
            },
            What::Number(_) => Err(ReadError::Bad),
            What::Mark(_) => Err(ReadError::Bad),
        },
        None => Err(ReadError::Bad),
    }
}

pub fn expr(alloc: Global, profile: u8, tokens: &[Token]) -> Result<(Cut, &[Token]), ReadError>
    ensures { Reads (λ x. (x.0, map (seen profile) x.1.now)) result (read (map (seen profile) tokens.now)) }
{
    match read_expr(alloc, profile, tokens)? {
        Some(found) => Ok(found),
        None => Err(ReadError::Bad),
    }
}

/// A name in brackets.
pub fn bracketed(
    alloc: Global,
    profile: u8,
    tokens: &[Token],
) -> Result<(Name, &[Token]), ReadError>
    ensures { Reads (λ x. (x.0, map (seen profile) x.1.now)) result (bracketed (map (seen profile) tokens.now)) }
{
    let rest = want(profile, Mark::Open, tokens)?;
    let (name, rest) = named(alloc, profile, rest)?;
    let rest = want(profile, Mark::Close, rest)?;
    Ok((name, rest))
}
