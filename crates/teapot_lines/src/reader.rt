ghost use Rattle.std.specs.Prelude.{◌≡◌, IfOk, MatchResult, map};
ghost use Rattle.std.specs.Option.{option_map};
ghost use Rattle.teapot_lines.specs.Seen.{seen};
ghost use Rattle.teapot_lines.specs.Reading.{operator, begun, at_begin, at_bracket, behind, at_after, led_by, whole, read};

use crate::cut::{Cut, Unary, leaf, one_of, two_of};
use std::alloc::Global;
use teapot_tree::{Expr, Keyword, Op, keyword_of};
use tw_base::{Memory, Stack};
use tw_lex::{Mark, Token, What};

/// What is written as a word before a bracket.
#[derive(Clone, Copy, Debug, PartialEq, Eq)]
pub enum Call {
    One(Unary),
    Two(Op),
}

/// A bracket that is open.
#[derive(Debug, Drop)]
pub enum Open {
    /// `(`, and the left operand is to come.
    Left,
    /// The first argument is to come.
    First(Call),
    /// The second operand or argument is to come.
    Second(Op, Cut),
}

/// What is next.
#[derive(Debug, Drop)]
pub enum Next {
    Expr,
    /// The bracket of a call.
    Bracket(Call),
    /// What follows an expression.
    After(Cut),
}

fn operator(mark: Mark) -> Option<Op>
    ensures { result ≡ operator mark }
{
    match mark {
        Mark::Plus => Some(Op::Add),
        Mark::Minus => Some(Op::Sub),
        Mark::Equal => Some(Op::Eq),
        Mark::Unequal => Some(Op::Ne),
        Mark::Less => Some(Op::Lt),
        Mark::LessEqual => Some(Op::Le),
        Mark::Both => Some(Op::And),
        Mark::Either => Some(Op::Or),
        _ => None,
    }
}

fn begun(key: Keyword) -> Option<Next>
    ensures { result ≡ begun key }
{
    match key {
        Keyword::True => Some(Next::After(leaf(Expr::True))),
        Keyword::False => Some(Next::After(leaf(Expr::False))),
        Keyword::Empty => Some(Next::After(leaf(Expr::Empty))),
        Keyword::Src => Some(Next::After(leaf(Expr::Src))),
        Keyword::SelfNode => Some(Next::After(leaf(Expr::SelfNode))),
        Keyword::Home => Some(Next::After(leaf(Expr::Home))),
        Keyword::One => Some(Next::Bracket(Call::One(Unary::One))),
        Keyword::Not => Some(Next::Bracket(Call::One(Unary::Not))),
        Keyword::Count => Some(Next::Bracket(Call::One(Unary::Count))),
        Keyword::Has => Some(Next::Bracket(Call::Two(Op::Has))),
        Keyword::With => Some(Next::Bracket(Call::Two(Op::With))),
        Keyword::Without => Some(Next::Bracket(Call::Two(Op::Without))),
        _ => None,
    }
}

fn at_begin(
    alloc: Global,
    profile: u8,
    held: &mut Stack<Open>,
    token: &Token,
) -> Result<Option<Next>, Memory>
    ensures { IfOk result (λ next. option_map (λ n. (held.new, n)) next ≡ at_begin held.old (seen profile token.now)) }
{
    match &token.what {
        What::Number(n) => {
            if *n <= u64::from(u32::MAX) {
                Ok(Some(Next::After(leaf(Expr::Number(*n as u32)))))
            } else {
                Ok(None)
            }
        }
        What::Word(name) => match keyword_of(profile, name.bytes()) {
            Some(key) => Ok(begun(key)),
            None => Ok(Some(Next::After(leaf(Expr::Var(name.copy(alloc)?))))),
        },
        What::Mark(Mark::Open) => {
            held.push(Open::Left)?;
            Ok(Some(Next::Expr))
        }
        What::Mark(_) => Ok(None),
    }
}

#[tactic(auto, using(crate::proofs::Words::word_is_no_bracket))]
fn at_bracket(
    profile: u8,
    held: &mut Stack<Open>,
    call: Call,
    token: &Token,
) -> Result<Option<Next>, Memory>
    ensures { IfOk result (λ next. option_map (λ n. (held.new, n)) next ≡ at_bracket held.old call (seen profile token.now)) }
{
    match &token.what {
        What::Mark(Mark::Open) => {
            held.push(Open::First(call))?;
            Ok(Some(Next::Expr))
        }
        What::Mark(_) => Ok(None),
        What::Number(_) => Ok(None),
        What::Word(_) => Ok(None),
    }
}

fn behind(
    alloc: Global,
    held: &mut Stack<Open>,
    top: Open,
    a: Cut,
    mark: Mark,
) -> Result<Option<Next>, Memory>
    ensures { IfOk result (λ next. option_map (λ n. (held.new, n)) next ≡ behind held.old top a mark) }
{
    match top {
        Open::Left => match operator(mark) {
            Some(op) => {
                held.push(Open::Second(op, a))?;
                Ok(Some(Next::Expr))
            }
            None => Ok(None),
        },
        Open::First(Call::One(word)) => match mark {
            Mark::Close => Ok(Some(Next::After(one_of(alloc, word, a)?))),
            _ => Ok(None),
        },
        Open::First(Call::Two(op)) => match mark {
            Mark::Comma => {
                held.push(Open::Second(op, a))?;
                Ok(Some(Next::Expr))
            }
            _ => Ok(None),
        },
        Open::Second(op, first) => match mark {
            Mark::Close => Ok(Some(Next::After(two_of(alloc, op, first, a)?))),
            _ => Ok(None),
        },
    }
}

#[tactic(auto, using(crate::proofs::Words::word_follows_none))]
fn at_after(
    alloc: Global,
    profile: u8,
    held: &mut Stack<Open>,
    a: Cut,
    token: &Token,
) -> Result<Option<Next>, Memory>
    ensures { IfOk result (λ next. option_map (λ n. (held.new, n)) next ≡ at_after held.old a (seen profile token.now)) }
{
    match held.pop() {
        Some(top) => match &token.what {
            What::Mark(mark) => behind(alloc, held, top, a, *mark),
            What::Number(_) => Ok(None),
            What::Word(_) => Ok(None),
        },
        None => Ok(None),
    }
}

fn led_by(
    alloc: Global,
    profile: u8,
    held: &mut Stack<Open>,
    next: Next,
    token: &Token,
) -> Result<Option<Next>, Memory>
    ensures { IfOk result (λ r. option_map (λ n. (held.new, n)) r ≡ led_by held.old next (seen profile token.now)) }
{
    match next {
        Next::Expr => at_begin(alloc, profile, held, token),
        Next::Bracket(call) => at_bracket(profile, held, call, token),
        Next::After(a) => at_after(alloc, profile, held, a, token),
    }
}

// The expression, where it is whole, or what was next.
fn whole(held: &Stack<Open>, next: Next) -> Result<Cut, Next>
    ensures { MatchResult result (λ a. whole held.now next ≡ Some a) (λ same. (same ≡ next) × (whole held.now next ≡ None)) }
{
    match next {
        Next::After(a) => {
            if held.is_empty() {
                Ok(a)
            } else {
                Err(Next::After(a))
            }
        }
        other => Err(other),
    }
}

/// The expression at the front of the tokens, and the tokens behind it.
pub fn read_expr(
    alloc: Global,
    profile: u8,
    tokens: &[Token],
) -> Result<Option<(Cut, &[Token])>, Memory>
    ensures { IfOk result (λ found. option_map (λ x. (x.0, map (seen profile) x.1.now)) found
        ≡ read (map (seen profile) tokens.now)) }
{
    let mut held = Stack::new(alloc);
    let mut next = Next::Expr;
    let mut rest = tokens;
    'tokens: while let Some((token, after)) = rest.split_first() {
        let now = match whole(&held, next) {
            Ok(a) => return Ok(Some((a, rest))),
            Err(now) => now,
        };
        next = match led_by(alloc, profile, &mut held, now, token)? {
            Some(found) => found,
            None => return Ok(None),
        };
        rest = after;
    }
    match whole(&held, next) {
        Ok(a) => Ok(Some((a, rest))),
        Err(_) => Ok(None),
    }
}
