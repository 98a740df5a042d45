ghost use Rattle.std.specs.Prelude.{◌≡◌, List, map};
ghost use Rattle.teapot_lines.specs.Seen.{Seen, seen};
ghost use Rattle.teapot_lines.specs.Reading.{read};
ghost use Rattle.teapot_lines.specs.Parts.{Got, Reads, with_front, more_at, listed, named, typed, param};

use crate::cut::Cut;
use crate::form::Typed;
use crate::parts::{ReadError, ends, expr, named, param, past, typed};
use std::alloc::Global;
use teapot_tree::ValType;
use tw_base::{Listed, Name};
use tw_lex::{Mark, Token};

/// An item of a list: how one is read at the front of tokens.
pub trait Item: Sized + Drop {
    ghost due: { List Seen → Got Self };

    fn item(alloc: Global, profile: u8, tokens: &[Token]) -> Result<(Self, &[Token]), ReadError>
        ensures { Reads (λ x. (x.0, map (seen profile) x.1.now)) result (due (map (seen profile) tokens.now)) };
}

impl Item for Cut {
    ghost due = { read };

    fn item(alloc: Global, profile: u8, tokens: &[Token]) -> Result<(Self, &[Token]), ReadError> {
        expr(alloc, profile, tokens)
    }
}

impl Item for Name {
    ghost due = { named };

    fn item(alloc: Global, profile: u8, tokens: &[Token]) -> Result<(Self, &[Token]), ReadError> {
        named(alloc, profile, tokens)
    }
}

impl Item for Typed {
    ghost due = { param };

    fn item(alloc: Global, profile: u8, tokens: &[Token]) -> Result<(Self, &[Token]), ReadError> {
        param(alloc, profile, tokens)
    }
}

impl Item for ValType {
    ghost due = { typed };

    fn item(_alloc: Global, profile: u8, tokens: &[Token]) -> Result<(Self, &[Token]), ReadError> {
        typed(profile, tokens)
    }
}

/// Adds the items that follow, each behind a comma.
pub fn more_items<I: Item>(
    alloc: Global,
    profile: u8,
    front: Listed<I>,
    tokens: &[Token],
) -> Result<(Listed<I>, &[Token]), ReadError>
    ensures { Reads (λ x. (x.0, map (seen profile) x.1.now)) result
        (with_front front (more_at I.due (map (seen profile) tokens.now))) }
{
    let mut found = front;
    let mut rest = tokens;
    'items: for _ in 0..tokens.len() {
        let Some(after) = past(profile, Mark::Comma, rest) else {
            return Ok((found, rest));
        };
        let (item, after) = I::item(alloc, profile, after)?;
        found.push(item)?;
        rest = after;
    }
    Err(ReadError::Bad)
}

/// A list that may be empty.
pub fn items<I: Item>(
    alloc: Global,
    profile: u8,
    tokens: &[Token],
) -> Result<(Listed<I>, &[Token]), ReadError>
    ensures { Reads (λ x. (x.0, map (seen profile) x.1.now)) result (listed I.due (map (seen profile) tokens.now)) }
{
    let mut found = Listed::new(alloc);
    if ends(profile, tokens) {
        return Ok((found, tokens));
    }
    let (item, rest) = I::item(alloc, profile, tokens)?;
    found.push(item)?;
    more_items(alloc, profile, found, rest)
}
