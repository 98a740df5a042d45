ghost use Rattle.std.specs.Prelude.{◌≡◌, ◌↔◌, IsTrue, map};
ghost use Rattle.teapot_tree.specs.Bare.{bare_handler};
ghost use Rattle.stache_l_tree.specs.Tree.{home_ro_l};

use crate::states::{SHARED_ON_GET_RW, SHARED_ON_WR_FAULT};
use crate::{Atom, Branch, Line, On, Plain, Term, Word, is_handler, is_handler_choosing};
use teapot_tree::{Handler, Op};

/// Where two caches are sharers, one of them gives its copy up before a third has one.
const ON_GET_RO: [Line; 3] = [
    Line::When(
        Term::CountIs(Atom::Var(Word::Sharers), Atom::Number(2)),
        Branch::RevokeOne,
    ),
    Line::Just(Plain::Assign(
        Word::Sharers,
        Term::Two(Op::With, Atom::Var(Word::Sharers), Atom::Src),
    )),
    Line::Just(Plain::Send(Atom::Src, Word::DataRo)),
];

pub fn is_home_ro_l(handlers: &[Handler]) -> bool
    ensures { IsTrue result ↔ (map bare_handler handlers.now ≡ home_ro_l.handlers) }
{
    match handlers {
        [a, b, c, d, e] => {
            if !is_handler(a, On::RdFault, &[Line::Just(Plain::WakeUp)]) {
                return false;
            }
            if !is_handler(b, On::WrFault, &SHARED_ON_WR_FAULT) {
                return false;
            }
            if !is_handler_choosing(c, On::Named(Word::GetRo), Word::X, &ON_GET_RO) {
                return false;
            }
            if !is_handler(d, On::Named(Word::GetRw), &SHARED_ON_GET_RW) {
                return false;
            }
            is_handler(
                e,
                On::Default,
                &[Line::Just(Plain::Error(Word::Unexpected))],
            )
        }
        _ => false,
    }
}
