ghost use Rattle.std.specs.Prelude.{◌≡◌, ◌↔◌, IsTrue};
ghost use Rattle.teapot_tree.specs.Bare.{bare_all};
ghost use Rattle.stache_tree.specs.Code.{stmts_of};
ghost use Rattle.stache_table.specs.Blocks.{rest_at};
ghost use Rattle.stache_d_table.specs.Blocks as table_d;
ghost use Rattle.stache_l_table.specs.Blocks as table_l;
ghost use Rattle.block_reads.specs.Tables.{rest_under};
ghost use Rattle.block_reads.specs.Whose.{rest_in, state_in};

use crate::Whose;
use stache_check::{Atom, Directory, Place, Plain, Term, Word, are_plain};
use teapot_tree::{Op, Stmt};
use tw_base::Tag;

/// Whether these are the statements that this state and continuation of Stache leave to be done, line numbers aside.
fn is_rest_of_stache(rest: &[Stmt], place: Place, whose: Whose) -> bool
    ensures { IsTrue result ↔ (bare_all rest.now ≡ stmts_of (rest_at (state_in place) (rest_in whose))) }
{
    match (place, whose) {
        (Place::HomeAcks, Whose::OfHome) | (Place::HomePut, Whose::OfHome) => are_plain(
            rest,
            &[
                Plain::SetTag(Tag::ReadWrite),
                Plain::WakeUp,
                Plain::SetState(Word::HomeRw),
            ],
        ),
        (Place::HomeAcks, Whose::OfRw(_)) => are_plain(
            rest,
            &[
                Plain::Assign(Word::Owner, Term::Atom(Atom::Src)),
                Plain::SetTag(Tag::Invalid),
                Plain::Send(Atom::Src, Word::DataRw),
                Plain::SetState(Word::HomeExcl),
            ],
        ),
        (Place::HomePut, Whose::OfRo(_)) => are_plain(
            rest,
            &[
                Plain::Assign(Word::Sharers, Term::One(Atom::Src)),
                Plain::SetTag(Tag::ReadOnly),
                Plain::Send(Atom::Src, Word::DataRo),
                Plain::SetState(Word::HomeRo),
            ],
        ),
        (Place::HomePut, Whose::OfRw(_)) => are_plain(
            rest,
            &[
                Plain::Assign(Word::Owner, Term::Atom(Atom::Src)),
                Plain::Send(Atom::Src, Word::DataRw),
                Plain::SetState(Word::HomeExcl),
            ],
        ),
        (Place::CacheWaitRo, Whose::OfCache) => {
            are_plain(rest, &[Plain::WakeUp, Plain::SetState(Word::CacheRo)])
        }
        (Place::CacheWaitRw, Whose::OfCache) => {
            are_plain(rest, &[Plain::WakeUp, Plain::SetState(Word::CacheRw)])
        }
        _ => rest.is_empty(),
    }
}

/// Whether a home of Stache_D that waits for its words leaves these to be done: a read leaves the owner its copy.
fn is_rest_at_put(rest: &[Stmt], whose: Whose) -> bool
    ensures { IsTrue result ↔ (bare_all rest.now ≡ stmts_of (table_d.rest_at (state_in Place.HomePut) (rest_in whose))) }
{
    match whose {
        Whose::OfLoad => are_plain(
            rest,
            &[
                Plain::Assign(Word::Sharers, Term::One(Atom::Var(Word::Owner))),
                Plain::SetTag(Tag::ReadOnly),
                Plain::WakeUp,
                Plain::SetState(Word::HomeRo),
            ],
        ),
        Whose::OfRo(_) => are_plain(
            rest,
            &[
                Plain::Assign(
                    Word::Sharers,
                    Term::WithOne(Atom::Var(Word::Owner), Atom::Src),
                ),
                Plain::SetTag(Tag::ReadOnly),
                Plain::Send(Atom::Src, Word::DataRo),
                Plain::SetState(Word::HomeRo),
            ],
        ),
        Whose::NoRest => is_rest_of_stache(rest, Place::HomePut, whose),
        Whose::OfHome => is_rest_of_stache(rest, Place::HomePut, whose),
        Whose::OfRw(_) => is_rest_of_stache(rest, Place::HomePut, whose),
        Whose::OfCache => is_rest_of_stache(rest, Place::HomePut, whose),
    }
}

#[tactic(auto, using(crate::proofs::Elsewhere::rest_elsewhere))]
fn is_rest_of_d(rest: &[Stmt], place: Place, whose: Whose) -> bool
    ensures { IsTrue result ↔ (bare_all rest.now ≡ stmts_of (table_d.rest_at (state_in place) (rest_in whose))) }
{
    match place {
        Place::HomePut => is_rest_at_put(rest, whose),
        _ => is_rest_of_stache(rest, place, whose),
    }
}

/// Whether these are the statements that a state and continuation of Stache_L leave to be done: a reader that waited for the
/// copy of another becomes a sharer beside the one that stayed.
fn is_rest_of_l(rest: &[Stmt], place: Place, whose: Whose) -> bool
    ensures { IsTrue result ↔ (bare_all rest.now ≡ stmts_of (table_l.rest_at (state_in place) (rest_in whose))) }
{
    match (place, whose) {
        (Place::HomeAcks, Whose::OfRo(_)) => are_plain(
            rest,
            &[
                Plain::Assign(
                    Word::Sharers,
                    Term::Two(Op::With, Atom::Var(Word::Sharers), Atom::Src),
                ),
                Plain::Send(Atom::Src, Word::DataRo),
            ],
        ),
        _ => is_rest_of_stache(rest, place, whose),
    }
}

/// Whether these are the statements that this state and continuation leave to be done, line numbers aside.
pub fn is_rest(directory: Directory, rest: &[Stmt], place: Place, whose: Whose) -> bool
    ensures { IsTrue result ↔ (bare_all rest.now ≡ stmts_of (rest_under directory (state_in place) (rest_in whose))) }
{
    match directory {
        Directory::Stache => is_rest_of_stache(rest, place, whose),
        Directory::StacheD => is_rest_of_d(rest, place, whose),
        Directory::StacheL => is_rest_of_l(rest, place, whose),
    }
}
