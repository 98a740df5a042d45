ghost use Rattle.std.specs.Prelude.{◌≡◌, IfOk};
ghost use Rattle.teapot_lines.specs.Cuts.{leaf, applied, one_of, two_of};

use sqlite_items::Boxed;
use std::alloc::Global;
use teapot_tree::{Expr, Op};
use tw_base::Memory;

/// How deep an expression may be. A leaf is 1 deep.
pub const DEPTH: u8 = 16;

/// What is kept of an expression that was read: nothing of one that is too deep, else its depth and its tree.
#[derive(Debug, Drop)]
pub enum Cut {
    Deep,
    Kept(u8, Expr),
}

/// An operator on one value.
#[derive(Clone, Copy, Debug, PartialEq, Eq)]
pub enum Unary {
    One,
    Not,
    Count,
}

pub fn leaf(tree: Expr) -> Cut
    ensures { result ≡ leaf tree }
{
    Cut::Kept(1, tree)
}

fn applied(alloc: Global, word: Unary, a: Expr) -> Result<Expr, Memory>
    ensures { IfOk result (λ e. e ≡ applied word a) }
{
    let operand = Boxed::new(alloc, a)?;
    Ok(match word {
        Unary::One => Expr::One(operand),
        Unary::Not => Expr::Not(operand),
        Unary::Count => Expr::Count(operand),
    })
}

pub fn one_of(alloc: Global, word: Unary, a: Cut) -> Result<Cut, Memory>
    ensures { IfOk result (λ c. c ≡ one_of word a) }
{
    match a {
        Cut::Kept(depth, tree) if depth < DEPTH => {
            Ok(Cut::Kept(depth + 1, applied(alloc, word, tree)?))
        }
        _ => Ok(Cut::Deep),
    }
}

pub fn two_of(alloc: Global, op: Op, a: Cut, b: Cut) -> Result<Cut, Memory>
    ensures { IfOk result (λ c. c ≡ two_of op a b) }
{
    match a {
        Cut::Kept(m, a) if m < DEPTH => match b {
            Cut::Kept(n, b) if n < DEPTH => Ok(Cut::Kept(
                m.max(n) + 1,
                Expr::Two(op, Boxed::new(alloc, a)?, Boxed::new(alloc, b)?),
            )),
            _ => Ok(Cut::Deep),
        },
        _ => Ok(Cut::Deep),
    }
}
