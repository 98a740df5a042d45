ghost use Rattle.std.specs.Prelude.{◌≡◌, ◌↔◌, IsTrue, None, map};
ghost use Rattle.teapot_tree.specs.Bare.{bare, bare_all};
ghost use Rattle.teapot_tree.specs.declared.stmt.Do.TheOpen.{Do-F};
ghost use Rattle.stache_tree.specs.Code.{said};
ghost use Rattle.stache_check.specs.Words.{branch_of, line_of, plain_of, plains, term_expr};

use crate::{Atom, Term, Word, is_atom, is_term};
use teapot_tree::{Do, Op, Stmt};
use tw_base::{Listed, Tag};

/// A statement that holds no other.
#[derive(Clone, Copy)]
pub enum Plain {
    Assign(Word, Term),
    /// A loop over a set that does nothing: it leaves the last member in its variable.
    Last(Word, Term),
    Send(Atom, Word),
    SendAll(Atom, Word),
    SetTag(Tag),
    SetState(Word),
    Suspend(Word),
    Resume(Word),
    Error(Word),
    Install,
    Enqueue,
    WakeUp,
}

/// What an If does where its test holds.
#[derive(Clone, Copy)]
pub enum Branch {
    Revoke,
    RevokeOne,
    Finish,
}

#[derive(Clone, Copy)]
pub enum Line {
    Just(Plain),
    When(Term, Branch),
}

#[tactic(auto, unfolding(teapot_tree::specs::Bare::bare_do, teapot_tree::specs::Bare::bare))]
pub fn is_plain(s: &Stmt, plain: Plain) -> bool
    ensures { IsTrue result ↔ (bare s.now ≡ plain_of plain) }
{
    match (&s.what, plain) {
        (Do::Assign(name, e), Plain::Assign(word, term)) => word.is(name) && is_term(e, term),
        (Do::ForEach(name, e, body), Plain::Last(word, term)) => {
            if !word.is(name) || !is_term(e, term) {
                return false;
            }
            body.is_empty()
        }
        (Do::Send(to, name, args), Plain::Send(atom, word)) => {
            is_atom(to, atom) && word.is(name) && args.is_empty()
        }
        (Do::SendAll(to, name, args), Plain::SendAll(atom, word)) => {
            is_atom(to, atom) && word.is(name) && args.is_empty()
        }
        (Do::SetTag(tag), Plain::SetTag(other)) => *tag == other,
        (Do::SetState(name, args), Plain::SetState(word)) => word.is(name) && args.is_empty(),
        (Do::Suspend(label, name, args, passed), Plain::Suspend(word)) => {
            Word::L.is(label) && word.is(name) && args.is_empty() && Word::L.is(passed)
        }
        (Do::Resume(name), Plain::Resume(word)) => word.is(name),
        (Do::Error(name), Plain::Error(word)) => word.is(name),
        (Do::Install, Plain::Install) => true,
        (Do::Enqueue, Plain::Enqueue) => true,
        (Do::WakeUp, Plain::WakeUp) => true,
        _ => false,
    }
}

pub fn are_plain(stmts: &[Stmt], lines: &[Plain]) -> bool
    ensures { IsTrue result ↔ (bare_all stmts.now ≡ plains lines.now) }
{
    if stmts.len() != lines.len() {
        return false;
    }
    for (at, s) in stmts.iter().enumerate() {
        if !is_plain(s, lines[at]) {
            return false;
        }
    }
    true
}

impl Branch {
    ghost use Rattle.stache_check.specs.Words.{branch_of};

    pub fn lines(self) -> &'static [Plain]
        ensures { result.now ≡ branch_of self }
    {
        match self {
            Branch::Revoke => &[
                Plain::SendAll(Atom::Var(Word::Sharers), Word::Inv),
                Plain::Assign(Word::Sharers, Term::Atom(Atom::Empty)),
                Plain::Suspend(Word::HomeAcks),
            ],
            Branch::RevokeOne => &[
                Plain::Last(Word::X, Term::Atom(Atom::Var(Word::Sharers))),
                Plain::Assign(
                    Word::Sharers,
                    Term::Two(Op::Without, Atom::Var(Word::Sharers), Atom::Var(Word::X)),
                ),
                Plain::Assign(Word::Acks, Term::Atom(Atom::Number(1))),
                Plain::Send(Atom::Var(Word::X), Word::Inv),
                Plain::Suspend(Word::HomeAcks),
            ],
            Branch::Finish => &[Plain::Resume(Word::C)],
        }
    }
}

fn is_absent(stmts: &Option<Listed<Stmt>>) -> bool
    ensures { IsTrue result ↔ (stmts.now ≡ None) }
{
    match stmts {
        None => true,
        Some(_) => false,
    }
}

#[tactic(auto, unfolding(teapot_tree::specs::Bare::bare_do, teapot_tree::specs::Bare::bare))]
fn is_when(s: &Stmt, term: Term, lines: &[Plain]) -> bool
    ensures { IsTrue result ↔ (bare s.now ≡ said (Do-F.If (term_expr term) (plains lines.now) None)) }
{
    match &s.what {
        Do::If(e, first, second) => {
            if !is_absent(second) || !is_term(e, term) {
                return false;
            }
            are_plain(first.items(), lines)
        }
        _ => false,
    }
}

pub fn is_line(s: &Stmt, line: Line) -> bool
    ensures { IsTrue result ↔ (bare s.now ≡ line_of line) }
{
    match line {
        Line::Just(plain) => is_plain(s, plain),
        Line::When(term, branch) => is_when(s, term, branch.lines()),
    }
}

pub fn are_lines(stmts: &[Stmt], lines: &[Line]) -> bool
    ensures { IsTrue result ↔ (bare_all stmts.now ≡ map line_of lines.now) }
{
    if stmts.len() != lines.len() {
        return false;
    }
    for (at, s) in stmts.iter().enumerate() {
        if !is_line(s, lines[at]) {
            return false;
        }
    }
    true
}
