ghost use Rattle.std.specs.Prelude.{◌≡◌, ◌≤◌, ◌↔◌, IsTrue, [], ◌∷◌, MatchOption};
ghost use Rattle.tw_base.specs.declared.value.Value.TheVariants as v;
ghost use Rattle.block_spots.specs.Views.{int_of, state_numbered, value_at};
ghost use Rattle.teapot_meaning.specs.Bare.{bare_cont, bare_val};
ghost use Rattle.teapot_meaning.specs.Steps.{node_of, set_of};
ghost use Rattle.stache_table.specs.Blocks.{left_of};
ghost use Rattle.stache_table.specs.Runs.{cont_if};
ghost use Rattle.stache_l_table.specs.Blocks.{chosen_of};
ghost use Rattle.block_reads.specs.Tables.{IsLiteralUnder, later_under, reads_under};
ghost use Rattle.block_reads.specs.Whose.{IsPlace, opt, state_in, told_val};

use crate::whose::is_serving;
use crate::{Whose, rest_under};
use sqlite_items::Boxed;
use stache_check::{Directory, Place};
use teapot_meaning::{Cont, Here, StateVal};
use tw_base::{NodeId, Value};

#[tactic(auto, using(crate::proofs::Layers::past))]
pub fn place_of(number: u8) -> Option<Place>
    ensures { MatchOption result (10 ≤ number) (λ p. IsPlace number p) }
{
    match number {
        0 => Some(Place::HomeRw),
        1 => Some(Place::HomeRo),
        2 => Some(Place::HomeExcl),
        3 => Some(Place::HomeAcks),
        4 => Some(Place::HomePut),
        5 => Some(Place::CacheInv),
        6 => Some(Place::CacheRo),
        7 => Some(Place::CacheRw),
        8 => Some(Place::CacheWaitRo),
        9 => Some(Place::CacheWaitRw),
        _ => None,
    }
}

/// The state with this number, as the table speaks of it.
#[tactic(auto, using(crate::proofs::Layers::past_state))]
pub fn place_seen(number: u8) -> Place
    ensures { state_in result ≡ state_numbered number }
{
    place_of(number).unwrap_or(Place::CacheInv)
}

fn are_infos(infos: &[Value]) -> bool
    ensures { IsTrue result ↔ (infos.now ≡ v.Set (set_of (value_at infos.now 0)) ∷ v.Node
        (node_of (value_at infos.now 1)) ∷ v.Int (int_of (value_at infos.now 2)) ∷ []) }
{
    matches!(infos, [Value::Set(_), Value::Node(_), Value::Int(_)])
}

#[tactic(auto, using(crate::proofs::Layers::reads_none))]
fn is_cont(cont: &Option<Boxed<Cont>>, directory: Directory, place: Place, me: NodeId) -> bool
    ensures { IsTrue result ↔ (opt bare_cont cont.now ≡ cont_if
        (later_under directory me (state_in place) (left_of cont.now) (chosen_of cont.now) (reads_under directory cont.now))) }
{
    let whose = rest_under(directory, cont);
    match cont {
        None => true,
        Some(k) => {
            let k = k.get();
            match whose {
                Whose::NoRest => false,
                Whose::OfRo(node) => is_serving(k, directory, place, whose, node),
                Whose::OfRw(node) => is_serving(k, directory, place, whose, node),
                Whose::OfHome => is_serving(k, directory, place, whose, me),
                Whose::OfLoad => is_serving(k, directory, place, whose, me),
                Whose::OfCache => is_serving(k, directory, place, whose, me),
            }
        }
    }
}

#[tactic(auto, using(crate::proofs::Layers::places))]
fn is_state(s: &StateVal, directory: Directory, me: NodeId) -> bool
    ensures { IsTrue result ↔ (bare_val s.now ≡ told_val directory me s.now) }
{
    let Some(place) = place_of(s.state) else {
        return false;
    };
    if !s.args.is_empty() {
        return false;
    }
    is_cont(&s.cont, directory, place, me)
}

/// Whether it is a block of the protocol with its continuation whole, line numbers aside.
pub fn is_literal(directory: Directory, here: &Here) -> bool
    ensures { IsTrue result ↔ IsLiteralUnder directory here.now }
{
    match directory {
        Directory::Stache => {
            is_state(&here.state, Directory::Stache, here.me) && are_infos(here.infos.items())
        }
        Directory::StacheD => {
            is_state(&here.state, Directory::StacheD, here.me) && are_infos(here.infos.items())
        }
        Directory::StacheL => {
            is_state(&here.state, Directory::StacheL, here.me) && are_infos(here.infos.items())
        }
    }
}
