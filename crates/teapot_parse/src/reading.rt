ghost use Rattle.std.specs.Prelude.{◌≡◌};
ghost use Rattle.tw_base.specs.Answers.{Gives};
ghost use Rattle.teapot_parse.specs.declared.reading.ParseError.TheVariants.{Memory as OutOfMemory};
ghost use Rattle.teapot_parse.specs.Parsing.{names_two_in, profile_of, forms_read, nests, within, whole, parsed, is_memory};

use crate::build::{Head, Parts, built};
use crate::count::{Many, first_over};
use crate::judge::{Judged, judge};
use crate::placed::Placed;
use std::alloc::{AllocError, AllocFailed, Global};
use teapot_lines::{ReadError, form_of};
use teapot_tree::{Keyword, Protocol, keyword_of};
use tw_base::{Listed, Memory, Stack};
use tw_lex::{Line, What};

/// Why lines are no protocol, in the order in which refusals are found.
#[derive(Clone, Copy, Debug, PartialEq, Eq, thiserror::Error)]
pub enum ParseError {
    /// The line is of no form.
    #[error("line {line}: no form of a line")]
    BadLine { line: u32 },
    /// The line cannot stand at its place.
    #[error("line {line}: a line that cannot stand there")]
    BadNest { line: u32 },
    /// At the line a count passes its limit.
    #[error("line {line}: too many: {what:?}")]
    TooMany { what: Many, line: u32 },
    #[error("out of memory")]
    Memory,
}

impl From<Memory> for ParseError {
    ghost from_gives = { λ _ e. e ≡ OutOfMemory };

    fn from(_: Memory) -> Self {
        ParseError::Memory
    }
}

impl From<AllocError> for ParseError {
    ghost from_gives = { λ _ e. e ≡ OutOfMemory };

    fn from(_: AllocError) -> Self {
        ParseError::Memory
    }
}

impl<T: Drop> From<AllocFailed<T>> for ParseError {
    ghost from_gives = { λ _ e. e ≡ OutOfMemory };

    fn from(_: AllocFailed<T>) -> Self {
        ParseError::Memory
    }
}

// Whether the first line is `Protocol NAME 2`.
fn names_two_in(lines: &[Line]) -> bool
    ensures { result ≡ names_two_in lines.now }
{
    let Some(line) = lines.first() else {
        return false;
    };
    let tokens = line.tokens.items();
    if tokens.len() != 3 {
        return false;
    }
    match (&tokens[0].what, &tokens[1].what, &tokens[2].what) {
        (What::Word(first), What::Word(name), What::Number(number)) => {
            keyword_of(1, first.bytes()) == Some(Keyword::Protocol)
                && keyword_of(1, name.bytes()).is_none()
                && *number == 2
        }
        _ => false,
    }
}

// The profile that the first line names.
fn profile_of(lines: &[Line]) -> u8
    ensures { result ≡ profile_of lines.now }
{
    if names_two_in(lines) { 2 } else { 1 }
}

// Each line is let go once it is read.
fn forms_read(alloc: Global, profile: u8, lines: Listed<Line>) -> Result<Vec<Placed>, ParseError>
    ensures { Gives is_memory (λ forms. forms.items) result (forms_read profile lines) }
{
    let mut left = Stack::of(lines.into_vec());
    let mut forms = Vec::new(alloc);
    'lines: while let Some(line) = left.pop() {
        let form = match form_of(alloc, profile, line.tokens.items()) {
            Ok(form) => form,
            Err(ReadError::Bad) => return Err(ParseError::BadLine { line: line.number }),
            Err(ReadError::Memory) => return Err(ParseError::Memory),
        };
        forms.push(Placed {
            line: line.number,
            form,
        })?;
    }
    Ok(forms)
}

fn check_nesting(alloc: Global, forms: &[Placed], after: u32) -> Result<(), ParseError>
    ensures { Gives is_memory (λ u. u) result (nests forms.now after) }
{
    match judge(alloc, forms)? {
        Judged::Nested => Ok(()),
        Judged::Bad(at) => {
            let line = match forms.get(at) {
                Some(placed) => placed.line,
                None => after,
            };
            Err(ParseError::BadNest { line })
        }
        Judged::Missing => Err(ParseError::BadNest { line: after }),
    }
}

fn check_limits(forms: &[Placed]) -> Result<(), ParseError>
    ensures { Gives is_memory (λ u. u) result (within forms.now) }
{
    match first_over(forms) {
        None => Ok(()),
        Some((what, line)) => Err(ParseError::TooMany { what, line }),
    }
}

fn whole(parts: Parts, after: u32) -> Result<Protocol, ParseError>
    ensures { Gives is_memory (λ p. p) result (whole parts after) }
{
    let Parts {
        head,
        messages,
        infos,
        starts,
        states,
        handlers: _,
        locals: _,
        blocks: _,
    } = parts;
    match head {
        None => Err(ParseError::BadNest { line: after }),
        Some(
            Head {
                name,
                profile,
                line,
            },
        ) => Ok(Protocol {
            name,
            profile,
            line,
            messages: messages.into_listed(),
            infos: infos.into_listed(),
            starts: starts.into_listed(),
            states: states.into_listed(),
        }),
    }
}

/// The protocol of these lines. `after` is the number of the line behind them, named where something is missing.
#[tactic(auto, unfolding(crate::specs::Parsing::parsed))]
pub fn parse(alloc: Global, lines: Listed<Line>, after: u32) -> Result<Protocol, ParseError>
    ensures { Gives is_memory (λ p. p) result (parsed lines after) }
{
    let forms = forms_read(alloc, profile_of(lines.items()), lines)?;
    check_nesting(alloc, &forms, after)?;
    check_limits(&forms)?;
    let parts = built(alloc, forms)?;
    whole(parts, after)
}
