ghost use Rattle.std.specs.Prelude.{◌≡◌, ◌↔◌, IsTrue};
ghost use Rattle.stache_check.specs.Words.{atom_expr, term_expr};

use crate::Word;
use teapot_tree::{Expr, Op};

#[derive(Clone, Copy)]
pub enum Atom {
    Number(u32),
    Empty,
    Src,
    Home,
    Var(Word),
}

#[derive(Clone, Copy)]
pub enum Term {
    Atom(Atom),
    One(Atom),
    Count(Atom),
    Two(Op, Atom, Atom),
    /// `With(One(a), b)`: the set of two nodes.
    WithOne(Atom, Atom),
    /// `Count(a) = b`.
    CountIs(Atom, Atom),
}

pub fn is_atom(e: &Expr, atom: Atom) -> bool
    ensures { IsTrue result ↔ (e.now ≡ atom_expr atom) }
{
    match (e, atom) {
        (Expr::Number(n), Atom::Number(m)) => *n == m,
        (Expr::Empty, Atom::Empty) => true,
        (Expr::Src, Atom::Src) => true,
        (Expr::Home, Atom::Home) => true,
        (Expr::Var(name), Atom::Var(word)) => word.is(name),
        _ => false,
    }
}

fn is_one(e: &Expr, atom: Atom) -> bool
    ensures { IsTrue result ↔ (e.now ≡ term_expr (Term.One atom)) }
{
    match e {
        Expr::One(a) => is_atom(a.get(), atom),
        _ => false,
    }
}

fn is_count(e: &Expr, atom: Atom) -> bool
    ensures { IsTrue result ↔ (e.now ≡ term_expr (Term.Count atom)) }
{
    match e {
        Expr::Count(a) => is_atom(a.get(), atom),
        _ => false,
    }
}

pub fn is_term(e: &Expr, term: Term) -> bool
    ensures { IsTrue result ↔ (e.now ≡ term_expr term) }
{
    match (e, term) {
        (e, Term::Atom(atom)) => is_atom(e, atom),
        (Expr::One(a), Term::One(x)) => is_atom(a.get(), x),
        (Expr::Count(a), Term::Count(x)) => is_atom(a.get(), x),
        (Expr::Two(op, a, b), Term::Two(other, x, y)) => {
            *op == other && is_atom(a.get(), x) && is_atom(b.get(), y)
        }
        (Expr::Two(op, a, b), Term::WithOne(x, y)) => {
            *op == Op::With && is_one(a.get(), x) && is_atom(b.get(), y)
        }
        (Expr::Two(op, a, b), Term::CountIs(x, y)) => {
            *op == Op::Eq && is_count(a.get(), x) && is_atom(b.get(), y)
        }
        _ => false,
    }
}
