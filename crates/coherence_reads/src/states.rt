ghost use Rattle.std.specs.Prelude.{ℕ, ◌≡◌, ◌+◌, ◌≤◌};
ghost use Rattle.std.specs.Bool.{Decides};
ghost use Rattle.tw_base.specs.Lists.{one_if};
ghost use Rattle.block_spots.specs.Notes.{held_home, held_ro, held_rw};
ghost use Rattle.stache_table.specs.Blocks.{LeftFits, left_of};
ghost use Rattle.coherence_inv.specs.Coherent.{InHomeRoOrAcks, IsCacheNode, IsCacheState, IsHomeState, IsSettled, IsWaiting};
ghost use Rattle.coherence_inv.specs.Coherent.{OneRequest, RestFits, tag_of};
ghost use Rattle.stache_d_inv.specs.Coherent as words_d;
ghost use Rattle.stache_l_inv.specs.Coherent as words_l;
ghost use Rattle.coherence_reads.specs.Directories.{RestFitsUnder};
ghost use Rattle.note_reads.specs.Counts.{IsCount};
ghost use Rattle.block_reads.specs.Whose.{rest_in, state_in};

use crate::{Count, Whose};
use sqlite_items::Boxed;
use stache_check::{Directory, Place};
use teapot_meaning::Cont;
use tw_base::{NodeId, Tag};

/// The tag of a block in this state.
pub fn tag_of(place: Place) -> Tag
    ensures { result ≡ tag_of (state_in place) }
{
    match place {
        Place::HomeRw | Place::CacheRw => Tag::ReadWrite,
        Place::HomeRo | Place::HomeAcks | Place::CacheRo => Tag::ReadOnly,
        _ => Tag::Invalid,
    }
}

pub fn is_cache(place: Place) -> bool
    ensures { Decides result (IsCacheState (state_in place)) }
{
    match place {
        Place::CacheInv | Place::CacheRo | Place::CacheRw => true,
        Place::CacheWaitRo | Place::CacheWaitRw => true,
        _ => false,
    }
}

pub fn is_home(place: Place) -> bool
    ensures { Decides result (IsHomeState (state_in place)) }
{
    match place {
        Place::HomeRw | Place::HomeRo | Place::HomeExcl => true,
        Place::HomeAcks | Place::HomePut => true,
        _ => false,
    }
}

/// Whether the home may share its copy, or is taking it back.
pub fn is_shared(place: Place) -> bool
    ensures { Decides result (InHomeRoOrAcks (state_in place)) }
{
    matches!(place, Place::HomeRo | Place::HomeAcks)
}

pub fn is_settled(place: Place) -> bool
    ensures { Decides result (IsSettled (state_in place)) }
{
    matches!(place, Place::HomeRw | Place::HomeRo | Place::HomeExcl)
}

pub fn is_waiting(place: Place) -> bool
    ensures { Decides result (IsWaiting (state_in place)) }
{
    matches!(place, Place::CacheWaitRo | Place::CacheWaitRw)
}

/// Whether a node is a cache of a block of this home.
pub fn is_cache_node(nodes: u8, home: NodeId, node: NodeId) -> bool
    ensures { Decides result (IsCacheNode nodes home node) }
{
    node.get() < nodes && node != home
}

/// Whether a block of Stache in this state may have this continuation.
fn rest_fits_of_stache(nodes: u8, home: NodeId, place: Place, whose: Whose) -> bool
    ensures { Decides result (RestFits nodes home (state_in place) (rest_in whose)) }
{
    match place {
        Place::HomeAcks => match whose {
            Whose::OfHome => true,
            Whose::OfRw(node) => is_cache_node(nodes, home, node),
            _ => false,
        },
        Place::HomePut => match whose {
            Whose::OfHome => true,
            Whose::OfRo(node) => is_cache_node(nodes, home, node),
            Whose::OfRw(node) => is_cache_node(nodes, home, node),
            _ => false,
        },
        Place::CacheWaitRo | Place::CacheWaitRw => matches!(whose, Whose::OfCache),
        _ => matches!(whose, Whose::NoRest),
    }
}

/// Whether a block of Stache_D in this state may have this continuation.
#[tactic(auto, using(crate::proofs::Elsewhere::fits_elsewhere))]
fn rest_fits_of_d(nodes: u8, home: NodeId, place: Place, whose: Whose) -> bool
    ensures { Decides result (words_d.RestFits nodes home (state_in place) (rest_in whose)) }
{
    match place {
        Place::HomePut => match whose {
            Whose::OfHome => true,
            Whose::OfLoad => true,
            Whose::OfRo(node) => is_cache_node(nodes, home, node),
            Whose::OfRw(node) => is_cache_node(nodes, home, node),
            _ => false,
        },
        _ => rest_fits_of_stache(nodes, home, place, whose),
    }
}

/// Whether a block of Stache_L in this state may have this continuation: a reader may wait for the copy of another.
#[tactic(auto, using(crate::proofs::Elsewhere::fits_but_acks))]
fn rest_fits_of_l(nodes: u8, home: NodeId, place: Place, whose: Whose) -> bool
    ensures { Decides result (words_l.RestFits nodes home (state_in place) (rest_in whose)) }
{
    match place {
        Place::HomeAcks => match whose {
            Whose::OfHome => true,
            Whose::OfRo(node) => is_cache_node(nodes, home, node),
            Whose::OfRw(node) => is_cache_node(nodes, home, node),
            _ => false,
        },
        _ => rest_fits_of_stache(nodes, home, place, whose),
    }
}

/// Whether a block in this state may have this continuation.
pub fn rest_fits(directory: Directory, nodes: u8, home: NodeId, place: Place, whose: Whose) -> bool
    ensures { Decides result (RestFitsUnder directory nodes home (state_in place) (rest_in whose)) }
{
    match directory {
        Directory::Stache => rest_fits_of_stache(nodes, home, place, whose),
        Directory::StacheD => rest_fits_of_d(nodes, home, place, whose),
        Directory::StacheL => rest_fits_of_l(nodes, home, place, whose),
    }
}

/// The number of the state that a continuation restores.
pub fn left_of(cont: &Option<Boxed<Cont>>) -> u8
    ensures { result ≡ left_of cont.now }
{
    match cont {
        None => 0,
        Some(k) => k.get().saved.get().state,
    }
}

/// Whether a block in this state restores that one.
pub fn left_fits(place: Place, left: u8) -> bool
    ensures { Decides result (LeftFits (state_in place) left) }
{
    match place {
        Place::HomeAcks => left == 1,
        Place::HomePut => left == 2,
        Place::CacheWaitRo => left == 5,
        Place::CacheWaitRw => left == 5 || left == 6,
        _ => left == 0,
    }
}

/// 1 or 0.
fn count_if(yes: bool) -> Count
    ensures { IsCount result (one_if yes) }
{
    if yes { Count::One } else { Count::Zero }
}

pub fn held_ro(whose: Whose, node: NodeId) -> Count
    ensures { IsCount result (held_ro (rest_in whose) node) }
{
    match whose {
        Whose::OfRo(asker) => count_if(asker == node),
        _ => Count::Zero,
    }
}

pub fn held_rw(whose: Whose, node: NodeId) -> Count
    ensures { IsCount result (held_rw (rest_in whose) node) }
{
    match whose {
        Whose::OfRw(asker) => count_if(asker == node),
        _ => Count::Zero,
    }
}

pub fn held_home(whose: Whose) -> Count
    ensures { IsCount result (held_home (rest_in whose)) }
{
    match whose {
        Whose::OfHome => Count::One,
        Whose::OfLoad => Count::One,
        _ => Count::Zero,
    }
}

/// Whether one is there and the other is not.
fn is_one_alone(some: Count, none: Count) -> bool
    ensures { (n k : ℕ) → IsCount some n → IsCount none k → Decides result ((n ≡ 1) × (k ≡ 0)) }
{
    some.is_one() && none.is_zero()
}

fn are_zero(a: Count, b: Count) -> bool
    ensures { (n k : ℕ) → IsCount a n → IsCount b k → Decides result ((n ≡ 0) × (k ≡ 0)) }
{
    a.is_zero() && b.is_zero()
}

/// Whether a cache in this state has just the requests, on the way, deferred, held or answered, that it waits for.
pub fn one_request(place: Place, ro: Count, wr: Count) -> bool
    ensures { (a b c d : ℕ) → IsCount ro (a + b) → IsCount wr (c + d) → Decides result (OneRequest (state_in place) a b c d) }
{
    match place {
        Place::CacheWaitRo => is_one_alone(ro, wr),
        Place::CacheWaitRw => is_one_alone(wr, ro),
        _ => are_zero(ro, wr),
    }
}
