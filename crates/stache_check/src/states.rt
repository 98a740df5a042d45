ghost use Rattle.std.specs.Prelude.{◌≡◌, ◌↔◌, IsTrue, map};
ghost use Rattle.teapot_tree.specs.Bare.{bare_handler};
ghost use Rattle.stache_tree.specs.Tree.{home_rw, home_ro, home_excl, home_acks, home_put, cache_inv, cache_ro, cache_rw};
ghost use Rattle.stache_tree.specs.Tree.{cache_wait_ro, cache_wait_rw};

use crate::{Atom, Branch, Line, On, Plain, Term, Word, is_handler};
use teapot_tree::{Handler, Op};
use tw_base::Tag;

pub fn is_home_rw(handlers: &[Handler]) -> bool
    ensures { IsTrue result ↔ (map bare_handler handlers.now ≡ home_rw.handlers) }
{
    match handlers {
        [a, b, c] => {
            is_handler(
                a,
                On::Named(Word::GetRo),
                &[
                    Line::Just(Plain::Assign(Word::Sharers, Term::One(Atom::Src))),
                    Line::Just(Plain::SetTag(Tag::ReadOnly)),
                    Line::Just(Plain::Send(Atom::Src, Word::DataRo)),
                    Line::Just(Plain::SetState(Word::HomeRo)),
                ],
            ) && is_handler(
                b,
                On::Named(Word::GetRw),
                &[
                    Line::Just(Plain::Assign(Word::Owner, Term::Atom(Atom::Src))),
                    Line::Just(Plain::SetTag(Tag::Invalid)),
                    Line::Just(Plain::Send(Atom::Src, Word::DataRw)),
                    Line::Just(Plain::SetState(Word::HomeExcl)),
                ],
            ) && is_handler(
                c,
                On::Default,
                &[Line::Just(Plain::Error(Word::Unexpected))],
            )
        }
        _ => false,
    }
}

/// What a home that shares its copy does where it is to write itself.
pub const SHARED_ON_WR_FAULT: [Line; 7] = [
    Line::Just(Plain::Assign(Word::Acks, Term::Count(Atom::Var(Word::Sharers)))),
    Line::Just(Plain::SendAll(Atom::Var(Word::Sharers), Word::Inv)),
    Line::Just(Plain::Assign(Word::Sharers, Term::Atom(Atom::Empty))),
    Line::Just(Plain::Suspend(Word::HomeAcks)),
    Line::Just(Plain::SetTag(Tag::ReadWrite)),
    Line::Just(Plain::WakeUp),
    Line::Just(Plain::SetState(Word::HomeRw)),
];

/// And where a cache is to write.
pub const SHARED_ON_GET_RW: [Line; 7] = [
    Line::Just(Plain::Assign(
        Word::Sharers,
        Term::Two(Op::Without, Atom::Var(Word::Sharers), Atom::Src),
    )),
    Line::Just(Plain::Assign(Word::Acks, Term::Count(Atom::Var(Word::Sharers)))),
    Line::When(
        Term::Two(Op::Lt, Atom::Number(0), Atom::Var(Word::Acks)),
        Branch::Revoke,
    ),
    Line::Just(Plain::Assign(Word::Owner, Term::Atom(Atom::Src))),
    Line::Just(Plain::SetTag(Tag::Invalid)),
    Line::Just(Plain::Send(Atom::Src, Word::DataRw)),
    Line::Just(Plain::SetState(Word::HomeExcl)),
];

pub fn is_home_ro(handlers: &[Handler]) -> bool
    ensures { IsTrue result ↔ (map bare_handler handlers.now ≡ home_ro.handlers) }
{
    match handlers {
        [a, b, c, d, e] => {
            if !is_handler(a, On::RdFault, &[Line::Just(Plain::WakeUp)]) {
                return false;
            }
            if !is_handler(b, On::WrFault, &SHARED_ON_WR_FAULT) {
                return false;
            }
            if !is_handler(
                c,
                On::Named(Word::GetRo),
                &[
                    Line::Just(Plain::Assign(
                        Word::Sharers,
                        Term::Two(Op::With, Atom::Var(Word::Sharers), Atom::Src),
                    )),
                    Line::Just(Plain::Send(Atom::Src, Word::DataRo)),
                ],
            ) {
                return false;
            }
            if !is_handler(d, On::Named(Word::GetRw), &SHARED_ON_GET_RW) {
                return false;
            }
            is_handler(
                e,
                On::Default,
                &[Line::Just(Plain::Error(Word::Unexpected))],
            )
        }
        _ => false,
    }
}

pub fn is_home_excl(handlers: &[Handler]) -> bool
    ensures { IsTrue result ↔ (map bare_handler handlers.now ≡ home_excl.handlers) }
{
    match handlers {
        [a, b, c, d, e] => {
            if !is_handler(
                a,
                On::RdFault,
                &[
                    Line::Just(Plain::Send(Atom::Var(Word::Owner), Word::Recall)),
                    Line::Just(Plain::Suspend(Word::HomePut)),
                    Line::Just(Plain::SetTag(Tag::ReadWrite)),
                    Line::Just(Plain::WakeUp),
                    Line::Just(Plain::SetState(Word::HomeRw)),
                ],
            ) {
                return false;
            }
            if !is_handler(
                b,
                On::WrFault,
                &[
                    Line::Just(Plain::Send(Atom::Var(Word::Owner), Word::Recall)),
                    Line::Just(Plain::Suspend(Word::HomePut)),
                    Line::Just(Plain::SetTag(Tag::ReadWrite)),
                    Line::Just(Plain::WakeUp),
                    Line::Just(Plain::SetState(Word::HomeRw)),
                ],
            ) {
                return false;
            }
            if !is_handler(
                c,
                On::Named(Word::GetRo),
                &[
                    Line::Just(Plain::Send(Atom::Var(Word::Owner), Word::Recall)),
                    Line::Just(Plain::Suspend(Word::HomePut)),
                    Line::Just(Plain::Assign(Word::Sharers, Term::One(Atom::Src))),
                    Line::Just(Plain::SetTag(Tag::ReadOnly)),
                    Line::Just(Plain::Send(Atom::Src, Word::DataRo)),
                    Line::Just(Plain::SetState(Word::HomeRo)),
                ],
            ) {
                return false;
            }
            if !is_handler(
                d,
                On::Named(Word::GetRw),
                &[
                    Line::Just(Plain::Send(Atom::Var(Word::Owner), Word::Recall)),
                    Line::Just(Plain::Suspend(Word::HomePut)),
                    Line::Just(Plain::Assign(Word::Owner, Term::Atom(Atom::Src))),
                    Line::Just(Plain::Send(Atom::Src, Word::DataRw)),
                    Line::Just(Plain::SetState(Word::HomeExcl)),
                ],
            ) {
                return false;
            }
            is_handler(
                e,
                On::Default,
                &[Line::Just(Plain::Error(Word::Unexpected))],
            )
        }
        _ => false,
    }
}

pub fn is_home_acks(handlers: &[Handler]) -> bool
    ensures { IsTrue result ↔ (map bare_handler handlers.now ≡ home_acks.handlers) }
{
    match handlers {
        [a, b] => {
            is_handler(
                a,
                On::Named(Word::Ack),
                &[
                    Line::Just(Plain::Assign(
                        Word::Acks,
                        Term::Two(Op::Sub, Atom::Var(Word::Acks), Atom::Number(1)),
                    )),
                    Line::When(
                        Term::Two(Op::Eq, Atom::Var(Word::Acks), Atom::Number(0)),
                        Branch::Finish,
                    ),
                ],
            ) && is_handler(b, On::Default, &[Line::Just(Plain::Enqueue)])
        }
        _ => false,
    }
}

pub fn is_home_put(handlers: &[Handler]) -> bool
    ensures { IsTrue result ↔ (map bare_handler handlers.now ≡ home_put.handlers) }
{
    match handlers {
        [a, b] => {
            is_handler(
                a,
                On::Named(Word::Put),
                &[
                    Line::Just(Plain::Install),
                    Line::Just(Plain::Resume(Word::C)),
                ],
            ) && is_handler(b, On::Default, &[Line::Just(Plain::Enqueue)])
        }
        _ => false,
    }
}

pub fn is_cache_inv(handlers: &[Handler]) -> bool
    ensures { IsTrue result ↔ (map bare_handler handlers.now ≡ cache_inv.handlers) }
{
    match handlers {
        [a, b, c] => {
            is_handler(
                a,
                On::RdFault,
                &[
                    Line::Just(Plain::Send(Atom::Home, Word::GetRo)),
                    Line::Just(Plain::Suspend(Word::CacheWaitRo)),
                    Line::Just(Plain::WakeUp),
                    Line::Just(Plain::SetState(Word::CacheRo)),
                ],
            ) && is_handler(
                b,
                On::WrFault,
                &[
                    Line::Just(Plain::Send(Atom::Home, Word::GetRw)),
                    Line::Just(Plain::Suspend(Word::CacheWaitRw)),
                    Line::Just(Plain::WakeUp),
                    Line::Just(Plain::SetState(Word::CacheRw)),
                ],
            ) && is_handler(
                c,
                On::Default,
                &[Line::Just(Plain::Error(Word::Unexpected))],
            )
        }
        _ => false,
    }
}

pub fn is_cache_ro(handlers: &[Handler]) -> bool
    ensures { IsTrue result ↔ (map bare_handler handlers.now ≡ cache_ro.handlers) }
{
    match handlers {
        [a, b, c] => {
            is_handler(
                a,
                On::WrFault,
                &[
                    Line::Just(Plain::SetTag(Tag::Invalid)),
                    Line::Just(Plain::Send(Atom::Home, Word::GetRw)),
                    Line::Just(Plain::Suspend(Word::CacheWaitRw)),
                    Line::Just(Plain::WakeUp),
                    Line::Just(Plain::SetState(Word::CacheRw)),
                ],
            ) && is_handler(
                b,
                On::Named(Word::Inv),
                &[
                    Line::Just(Plain::SetTag(Tag::Invalid)),
                    Line::Just(Plain::Send(Atom::Src, Word::Ack)),
                    Line::Just(Plain::SetState(Word::CacheInv)),
                ],
            ) && is_handler(
                c,
                On::Default,
                &[Line::Just(Plain::Error(Word::Unexpected))],
            )
        }
        _ => false,
    }
}

pub fn is_cache_rw(handlers: &[Handler]) -> bool
    ensures { IsTrue result ↔ (map bare_handler handlers.now ≡ cache_rw.handlers) }
{
    match handlers {
        [a, b] => {
            is_handler(
                a,
                On::Named(Word::Recall),
                &[
                    Line::Just(Plain::SetTag(Tag::Invalid)),
                    Line::Just(Plain::Send(Atom::Src, Word::Put)),
                    Line::Just(Plain::SetState(Word::CacheInv)),
                ],
            ) && is_handler(
                b,
                On::Default,
                &[Line::Just(Plain::Error(Word::Unexpected))],
            )
        }
        _ => false,
    }
}

pub fn is_cache_wait_ro(handlers: &[Handler]) -> bool
    ensures { IsTrue result ↔ (map bare_handler handlers.now ≡ cache_wait_ro.handlers) }
{
    match handlers {
        [a, b] => {
            is_handler(
                a,
                On::Named(Word::DataRo),
                &[
                    Line::Just(Plain::Install),
                    Line::Just(Plain::SetTag(Tag::ReadOnly)),
                    Line::Just(Plain::Resume(Word::C)),
                ],
            ) && is_handler(
                b,
                On::Default,
                &[Line::Just(Plain::Error(Word::Unexpected))],
            )
        }
        _ => false,
    }
}

pub fn is_cache_wait_rw(handlers: &[Handler]) -> bool
    ensures { IsTrue result ↔ (map bare_handler handlers.now ≡ cache_wait_rw.handlers) }
{
    match handlers {
        [a, b, c] => {
            is_handler(
                a,
                On::Named(Word::DataRw),
                &[
                    Line::Just(Plain::Install),
                    Line::Just(Plain::SetTag(Tag::ReadWrite)),
                    Line::Just(Plain::Resume(Word::C)),
                ],
            ) && is_handler(
                b,
                On::Named(Word::Inv),
                &[Line::Just(Plain::Send(Atom::Src, Word::Ack))],
            ) && is_handler(
                c,
                On::Default,
                &[Line::Just(Plain::Error(Word::Unexpected))],
            )
        }
        _ => false,
    }
}
