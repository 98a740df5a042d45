ghost use Rattle.std.specs.Prelude.{◌≡◌, ◌+◌, ℕ, List, [], ◌∷◌, true, false};
ghost use Rattle.std.specs.Bool.{Decides};
ghost use Rattle.tw_base.specs.NodeSets.{has};
ghost use Rattle.block_spots.specs.Cases.{Here};
ghost use Rattle.block_spots.specs.Notes as marks;
ghost use Rattle.coherence_inv.specs.Coherent.{Answers, Apart, GivesBack, IsAway, IsSharer, Owns, Stands};
ghost use Rattle.stache_d_inv.specs.Coherent as words_d;
ghost use Rattle.stache_l_inv.specs.Coherent as words_l;
ghost use Rattle.note_reads.specs.Counts.{IsCount};
ghost use Rattle.coherence_reads.specs.Directories.{StandsUnder};
ghost use Rattle.note_reads.specs.Notes.{IsFew};
ghost use Rattle.block_reads.specs.Whose.{rest_in, state_in};
ghost use Rattle.coherence_reads.specs.Seeing.{IsOfHome, IsSeen};

use crate::{Count, Few, Note, Whose, both};
use stache_check::{Directory, Place};
use tw_base::{NodeId, NodeSet};

/// What a cache's row is read off.
#[derive(Clone, Copy)]
pub struct Seen {
    pub place: Place,
    /// Its GET_RWs on the way or deferred.
    pub gets: Count,
    /// Its GET_ROs in all.
    pub ro: Count,
    /// Its GET_RWs in all.
    pub wr: Count,
    pub down: Few,
    pub up: Few,
}

/// What a home has of a cache.
#[derive(Clone, Copy)]
pub struct OfHome {
    pub member: bool,
    pub owner: bool,
    pub held_ro: Count,
    pub held_rw: Count,
    /// Whose request the home serves.
    pub whose: Whose,
}

/// Whether a cache is away, by how many of its requests are held or on the way.
fn is_away(place: Place, ro: Count, wr: Count) -> bool
    ensures { (n k : ℕ) → IsCount ro n → IsCount wr k → Decides result (IsAway (state_in place) n k) }
{
    match place {
        Place::CacheInv => true,
        Place::CacheWaitRo => ro.is_one(),
        Place::CacheWaitRw => wr.is_one(),
        _ => false,
    }
}

fn is_sharer(place: Place, gets: Count, down: Few) -> bool
    ensures { (n : ℕ) (ds : List marks.Note) → IsCount gets n → IsFew down ds → Decides result (IsSharer (state_in place) n ds) }
{
    match (place, down) {
        (Place::CacheRo, Few::Empty) => true,
        (Place::CacheWaitRo, Few::One(Note::DataRo(_))) => true,
        (Place::CacheWaitRw, Few::Empty) => gets.is_one(),
        _ => false,
    }
}

fn owns(place: Place, down: Few) -> bool
    ensures { (ds : List marks.Note) → IsFew down ds → Decides result (Owns (state_in place) ds) }
{
    match (place, down) {
        (Place::CacheRw, Few::Empty) => true,
        (Place::CacheWaitRw, Few::One(Note::DataRw(_))) => true,
        _ => false,
    }
}

fn answers(x: &Seen) -> bool
    ensures { (s : marks.Spot) (ro wr : ℕ) → IsSeen x.now s ro wr →
        Decides result (Answers s.state ro wr (marks.gets_rw s) s.down s.up) }
{
    match (x.down, x.up) {
        (Few::Empty, Few::Empty) => is_away(x.place, x.ro, x.wr),
        (Few::Empty, Few::One(Note::Ack)) => is_away(x.place, x.ro, x.wr),
        (Few::One(Note::Inv), Few::Empty) => match x.place {
            Place::CacheRo => true,
            Place::CacheWaitRw => x.gets.is_one(),
            _ => false,
        },
        (Few::Two(Note::DataRo(_), Note::Inv), Few::Empty) => matches!(x.place, Place::CacheWaitRo),
        _ => false,
    }
}

/// Whether a cache stands that sent its words back.
fn has_put(place: Place, ro: Count, wr: Count) -> bool
    ensures { (n k : ℕ) (ws : List ℕ) → IsCount ro n → IsCount wr k →
        Decides result (GivesBack (state_in place) n k [] (marks.NPut ws ∷ [])) }
{
    is_away(place, ro, wr)
}

fn gives_back(place: Place, ro: Count, wr: Count, down: Few, up: Few) -> bool
    ensures { (n k : ℕ) (ds us : List marks.Note) → IsCount ro n → IsCount wr k → IsFew down ds → IsFew up us →
        Decides result (GivesBack (state_in place) n k ds us) }
{
    match (down, up) {
        (Few::Empty, Few::One(Note::Put(_))) => has_put(place, ro, wr),
        (Few::One(Note::Recall), Few::Empty) => matches!(place, Place::CacheRw),
        (Few::Two(Note::DataRw(_), Note::Recall), Few::Empty) => matches!(
            place,
            Place::CacheWaitRw
        ),
        _ => false,
    }
}

fn is_apart(x: &Seen) -> bool
    ensures { (s : marks.Spot) (ro wr : ℕ) → IsSeen x.now s ro wr → Decides result (Apart s ro wr) }
{
    is_away(x.place, x.ro, x.wr) && x.down.is_empty() && x.up.is_empty()
}

fn shares(x: &Seen) -> bool
    ensures { (s : marks.Spot) (ro wr : ℕ) → IsSeen x.now s ro wr →
        Decides result (IsSharer s.state (marks.gets_rw s) s.down × (s.up ≡ [])) }
{
    is_sharer(x.place, x.gets, x.down) && x.up.is_empty()
}

fn is_owner(x: &Seen) -> bool
    ensures { (s : marks.Spot) (ro wr : ℕ) → IsSeen x.now s ro wr → Decides result (Owns s.state s.down × (s.up ≡ [])) }
{
    owns(x.place, x.down) && x.up.is_empty()
}

fn stands_acks(x: &Seen, held_rw: Count) -> bool
    ensures { (s : marks.Spot) (ro wr held : ℕ) → IsSeen x.now s ro wr → IsCount held_rw held →
        Decides result (Answers s.state ro wr (marks.gets_rw s) s.down s.up × (held ≡ 1 → (s.down ≡ []) × (s.up ≡ []))) }
{
    if !answers(x) {
        return false;
    }
    if held_rw.is_one() {
        x.down.is_empty() && x.up.is_empty()
    } else {
        true
    }
}

fn stands_put(x: &Seen, held_ro: Count, held_rw: Count) -> bool
    ensures { (s : marks.Spot) (ro wr n k : ℕ) → IsSeen x.now s ro wr → IsCount held_ro n → IsCount held_rw k →
        Decides result (GivesBack s.state ro wr s.down s.up × (n + k ≡ 0)) }
{
    gives_back(x.place, x.ro, x.wr, x.down, x.up) && held_ro.plus(held_rw).is_zero()
}

/// Whether a cache stands as the home's state asks, under Stache.
fn stands_of_stache(home: Place, has: OfHome, x: &Seen) -> bool
    ensures { (h : Here) (i : ℕ) (s : marks.Spot) (ro wr : ℕ) → IsSeen x.now s ro wr → IsOfHome has h i →
        Decides result (Stands (state_in home) h i s ro wr) }
{
    match home {
        Place::HomeRw => is_apart(x),
        Place::HomeRo => { if has.member { shares(x) } else { is_apart(x) } }
        Place::HomeAcks => stands_acks(x, has.held_rw),
        Place::HomeExcl => { if has.owner { is_owner(x) } else { is_apart(x) } }
        Place::HomePut => {
            if has.owner {
                stands_put(x, has.held_ro, has.held_rw)
            } else {
                is_apart(x)
            }
        }
        _ => false,
    }
}

/// Whether an owner stands that is to keep a copy: it has its block and the recall is on the way, or it is as a sharer and has
/// answered.
fn gives_copy(x: &Seen) -> bool
    ensures { (s : marks.Spot) (ro wr : ℕ) → IsSeen x.now s ro wr →
        Decides result (words_d.GivesCopy s.state (marks.gets_rw s) s.down s.up) }
{
    match (x.down, x.up) {
        (Few::One(Note::RecallRo), Few::Empty) => matches!(x.place, Place::CacheRw),
        (Few::Two(Note::DataRw(_), Note::RecallRo), Few::Empty) => matches!(
            x.place,
            Place::CacheWaitRw
        ),
        (Few::Empty, Few::One(Note::PutRo(_))) => match x.place {
            Place::CacheRo => true,
            Place::CacheWaitRw => x.gets.is_one(),
            _ => false,
        },
        _ => false,
    }
}

/// Whether the owner gives its block back.
fn returns_all(x: &Seen) -> bool
    ensures { (s : marks.Spot) (ro wr : ℕ) → IsSeen x.now s ro wr → Decides result (GivesBack s.state ro wr s.down s.up) }
{
    gives_back(x.place, x.ro, x.wr, x.down, x.up)
}

/// Whether the owner stands as the request asks that the home serves: a read leaves it a copy.
fn is_recalled(x: &Seen, whose: Whose) -> bool
    ensures { (s : marks.Spot) (ro wr : ℕ) → IsSeen x.now s ro wr →
        Decides result (words_d.Recalled (rest_in whose) s.state ro wr (marks.gets_rw s) s.down s.up) }
{
    match whose {
        Whose::OfLoad => gives_copy(x),
        Whose::OfRo(_) => gives_copy(x),
        Whose::NoRest => returns_all(x),
        Whose::OfHome => returns_all(x),
        Whose::OfRw(_) => returns_all(x),
        Whose::OfCache => returns_all(x),
    }
}

/// Whether the owner stands as a home asks that waits for its words, under Stache_D.
fn stands_recalled(x: &Seen, has: OfHome) -> bool
    ensures { (h : Here) (i : ℕ) (s : marks.Spot) (ro wr : ℕ) → IsSeen x.now s ro wr → IsOfHome has h i →
        Decides result (words_d.Recalled h.rest s.state ro wr (marks.gets_rw s) s.down s.up
        × (marks.held_ro h.rest i + marks.held_rw h.rest i ≡ 0)) }
{
    both(
        is_recalled(x, has.whose),
        has.held_ro.plus(has.held_rw).is_zero(),
    )
}

fn stands_of_d(home: Place, has: OfHome, x: &Seen) -> bool
    ensures { (h : Here) (i : ℕ) (s : marks.Spot) (ro wr : ℕ) → IsSeen x.now s ro wr → IsOfHome has h i →
        Decides result (words_d.Stands (state_in home) h i s ro wr) }
{
    match home {
        Place::HomePut => {
            if has.owner {
                stands_recalled(x, has)
            } else {
                is_apart(x)
            }
        }
        _ => stands_of_stache(home, has, x),
    }
}

/// Whether a cache stands while the home waits for the copy of another than the reader: the sharer that stays is as before.
fn stands_for_reader(x: &Seen, member: bool, held_ro: Count) -> bool
    ensures { (s : marks.Spot) (ro wr held : ℕ) → IsSeen x.now s ro wr → IsCount held_ro held →
        Decides result ((member ≡ true → IsSharer s.state (marks.gets_rw s) s.down × (s.up ≡ []))
        × (member ≡ false → Answers s.state ro wr (marks.gets_rw s) s.down s.up × (held ≡ 1 → (s.down ≡ []) × (s.up ≡ [])))) }
{
    if member {
        shares(x)
    } else {
        stands_acks(x, held_ro)
    }
}

/// Whether a cache stands while a home of Stache_L collects acknowledgements, by the request that it serves.
fn stands_in_acks(x: &Seen, has: OfHome) -> bool
    ensures { (h : Here) (i : ℕ) (s : marks.Spot) (ro wr : ℕ) → IsSeen x.now s ro wr → IsOfHome has h i →
        Decides result (words_l.InAcks h.rest h.sharers i s ro wr) }
{
    match has.whose {
        Whose::OfRo(_) => stands_for_reader(x, has.member, has.held_ro),
        _ => stands_acks(x, has.held_rw),
    }
}

fn stands_of_l(home: Place, has: OfHome, x: &Seen) -> bool
    ensures { (h : Here) (i : ℕ) (s : marks.Spot) (ro wr : ℕ) → IsSeen x.now s ro wr → IsOfHome has h i →
        Decides result (words_l.Stands (state_in home) h i s ro wr) }
{
    match home {
        Place::HomeAcks => stands_in_acks(x, has),
        _ => stands_of_stache(home, has, x),
    }
}

/// Whether a cache stands as the home's state asks.
pub fn stands(directory: Directory, home: Place, has: OfHome, x: &Seen) -> bool
    ensures { (h : Here) (i : ℕ) (s : marks.Spot) (ro wr : ℕ) → IsSeen x.now s ro wr → IsOfHome has h i →
        Decides result (StandsUnder directory (state_in home) h i s ro wr) }
{
    match directory {
        Directory::Stache => stands_of_stache(home, has, x),
        Directory::StacheD => stands_of_d(home, has, x),
        Directory::StacheL => stands_of_l(home, has, x),
    }
}

/// Whether a set has no members.
pub fn is_nobody(set: NodeSet) -> bool
    ensures { Decides result ((k : ℕ) → has set k ≡ false) }
{
    let _eight = set.has(NodeId::new(0).unwrap());
    set == NodeSet::empty()
}
