ghost use Rattle.std.specs.Prelude.{◌≡◌, ◌↔◌, IsTrue, map};
ghost use Rattle.teapot_tree.specs.Bare.{bare_handler};
ghost use Rattle.stache_d_tree.specs.Tree.{cache_rw_d, home_excl_d, home_put_d};

use crate::{Atom, Line, On, Plain, Term, Word, is_handler};
use teapot_tree::Handler;
use tw_base::Tag;

const ON_RD_FAULT: [Line; 6] = [
    Line::Just(Plain::Send(Atom::Var(Word::Owner), Word::RecallRo)),
    Line::Just(Plain::Suspend(Word::HomePut)),
    Line::Just(Plain::Assign(Word::Sharers, Term::One(Atom::Var(Word::Owner)))),
    Line::Just(Plain::SetTag(Tag::ReadOnly)),
    Line::Just(Plain::WakeUp),
    Line::Just(Plain::SetState(Word::HomeRo)),
];

const ON_WR_FAULT: [Line; 5] = [
    Line::Just(Plain::Send(Atom::Var(Word::Owner), Word::Recall)),
    Line::Just(Plain::Suspend(Word::HomePut)),
    Line::Just(Plain::SetTag(Tag::ReadWrite)),
    Line::Just(Plain::WakeUp),
    Line::Just(Plain::SetState(Word::HomeRw)),
];

const ON_GET_RO: [Line; 6] = [
    Line::Just(Plain::Send(Atom::Var(Word::Owner), Word::RecallRo)),
    Line::Just(Plain::Suspend(Word::HomePut)),
    Line::Just(Plain::Assign(
        Word::Sharers,
        Term::WithOne(Atom::Var(Word::Owner), Atom::Src),
    )),
    Line::Just(Plain::SetTag(Tag::ReadOnly)),
    Line::Just(Plain::Send(Atom::Src, Word::DataRo)),
    Line::Just(Plain::SetState(Word::HomeRo)),
];

const ON_GET_RW: [Line; 5] = [
    Line::Just(Plain::Send(Atom::Var(Word::Owner), Word::Recall)),
    Line::Just(Plain::Suspend(Word::HomePut)),
    Line::Just(Plain::Assign(Word::Owner, Term::Atom(Atom::Src))),
    Line::Just(Plain::Send(Atom::Src, Word::DataRw)),
    Line::Just(Plain::SetState(Word::HomeExcl)),
];

pub fn is_home_excl_d(handlers: &[Handler]) -> bool
    ensures { IsTrue result ↔ (map bare_handler handlers.now ≡ home_excl_d.handlers) }
{
    match handlers {
        [a, b, c, d, e] => {
            if !is_handler(a, On::RdFault, &ON_RD_FAULT) {
                return false;
            }
            if !is_handler(b, On::WrFault, &ON_WR_FAULT) {
                return false;
            }
            if !is_handler(c, On::Named(Word::GetRo), &ON_GET_RO) {
                return false;
            }
            if !is_handler(d, On::Named(Word::GetRw), &ON_GET_RW) {
                return false;
            }
            is_handler(
                e,
                On::Default,
                &[Line::Just(Plain::Error(Word::Unexpected))],
            )
        }
        _ => false,
    }
}

const GIVES_BACK: [Line; 2] = [
    Line::Just(Plain::Install),
    Line::Just(Plain::Resume(Word::C)),
];

pub fn is_home_put_d(handlers: &[Handler]) -> bool
    ensures { IsTrue result ↔ (map bare_handler handlers.now ≡ home_put_d.handlers) }
{
    match handlers {
        [a, b, c] => {
            is_handler(a, On::Named(Word::Put), &GIVES_BACK)
                && is_handler(b, On::Named(Word::PutRo), &GIVES_BACK)
                && is_handler(c, On::Default, &[Line::Just(Plain::Enqueue)])
        }
        _ => false,
    }
}

pub fn is_cache_rw_d(handlers: &[Handler]) -> bool
    ensures { IsTrue result ↔ (map bare_handler handlers.now ≡ cache_rw_d.handlers) }
{
    match handlers {
        [a, b, c] => {
            is_handler(
                a,
                On::Named(Word::Recall),
                &[
                    Line::Just(Plain::SetTag(Tag::Invalid)),
                    Line::Just(Plain::Send(Atom::Src, Word::Put)),
                    Line::Just(Plain::SetState(Word::CacheInv)),
                ],
            ) && is_handler(
                b,
                On::Named(Word::RecallRo),
                &[
                    Line::Just(Plain::SetTag(Tag::ReadOnly)),
                    Line::Just(Plain::Send(Atom::Src, Word::PutRo)),
                    Line::Just(Plain::SetState(Word::CacheRo)),
                ],
            ) && is_handler(
                c,
                On::Default,
                &[Line::Just(Plain::Error(Word::Unexpected))],
            )
        }
        _ => false,
    }
}
