ghost use Rattle.std.specs.Prelude.{ℕ, ◌≡◌, ◌+◌, ◌≤◌, List, []};
ghost use Rattle.std.specs.Bool.{Decides};
ghost use Rattle.tw_base.specs.Lists.{Each, how_many};
ghost use Rattle.block_spots.specs.Cases.{CacheRo, Here, HomeRw};
ghost use Rattle.block_spots.specs.Notes as marks;
ghost use Rattle.coherence_inv.specs.Coherent.{HasWords, InHomeRoOrAcks};
ghost use Rattle.coherence_inv.specs.Parts.{First, Second, Third, Fourth, Fifth, Sixth};
ghost use Rattle.note_reads.specs.Counts.{IsCount};
ghost use Rattle.coherence_reads.specs.Directories.{AnsweredUnder, IsDownUnder, IsUpUnder};
ghost use Rattle.stache_check.specs.declared.directory.Directory.{Directory as Protocol};
ghost use Rattle.note_reads.specs.Notes.{IsFew, IsSummary};
ghost use Rattle.coherence_reads.specs.Seeing.{CacheFits, IsOfHome, IsSeen, IsSpot, OwnPlaces, OwnRequests, here_in, which};
ghost use Rattle.block_reads.specs.Whose.{state_in};

use crate::standing::stands;
use crate::states::{
    held_home, held_ro, held_rw, is_cache, is_shared, one_request, rest_fits, tag_of,
};
use crate::{Count, Few, Home, OfHome, Part, Seen, Spot, Summary, both};
use stache_check::{Directory, Place};
use tw_base::{Data, NodeId};

/// The GET_ROs of a cache on the way, deferred or held.
fn asks_ro(x: &Spot, home: &Home, node: NodeId) -> Count
    ensures { (w : ℕ) (ws : List ℕ) (s : marks.Spot) → IsSpot w ws x.now s →
        IsCount result (marks.gets_ro s + marks.held_ro (here_in home.now).rest node) }
{
    x.ask
        .get_ro
        .plus(x.kept.get_ro)
        .plus(held_ro(home.whose, node))
}

/// The GET_RWs of a cache on the way or deferred.
fn gets_rw(x: &Spot) -> Count
    ensures { (w : ℕ) (ws : List ℕ) (s : marks.Spot) → IsSpot w ws x.now s → IsCount result (marks.gets_rw s) }
{
    x.ask.get_rw.plus(x.kept.get_rw)
}

/// The GET_RWs of a cache on the way, deferred or held.
fn asks_rw(x: &Spot, home: &Home, node: NodeId) -> Count
    ensures { (w : ℕ) (ws : List ℕ) (s : marks.Spot) → IsSpot w ws x.now s →
        IsCount result (marks.gets_rw s + marks.held_rw (here_in home.now).rest node) }
{
    gets_rw(x).plus(held_rw(home.whose, node))
}

fn seen(x: &Spot, home: &Home, node: NodeId) -> Seen
    ensures { (w : ℕ) (ws : List ℕ) (s : marks.Spot) → IsSpot w ws x.now s →
        IsSeen result s (marks.gets_ro s + marks.held_ro (here_in home.now).rest node)
        (marks.gets_rw s + marks.held_rw (here_in home.now).rest node) }
{
    Seen {
        place: x.place,
        gets: gets_rw(x),
        ro: asks_ro(x, home, node),
        wr: asks_rw(x, home, node),
        down: x.down.few,
        up: x.up.few,
    }
}

fn of_home(home: &Home, node: NodeId) -> OfHome
    ensures { IsOfHome result (here_in home.now) node }
{
    OfHome {
        member: home.sharers.has(node),
        owner: node == home.owner,
        held_ro: held_ro(home.whose, node),
        held_rw: held_rw(home.whose, node),
        whose: home.whose,
    }
}

fn has_tag(x: &Spot) -> bool
    ensures { (d : Protocol) (w n h i : ℕ) (ws : List ℕ) (home : Here) (s : marks.Spot) → IsSpot w ws x.now s →
        Decides result (CacheFits d First w n h home i s) }
{
    is_cache(x.place) && x.tag == tag_of(x.place)
}

fn has_rest(directory: Directory, x: &Spot, nodes: u8, home: NodeId) -> bool
    ensures { (w i : ℕ) (ws : List ℕ) (at : Here) (s : marks.Spot) → IsSpot w ws x.now s →
        Decides result (CacheFits directory Second w nodes home at i s) }
{
    rest_fits(directory, nodes, home, x.place, x.whose)
}

/// Whether each note is one that the protocol's homes send to caches on channel 1.
fn are_down(directory: Directory, notes: &Summary) -> bool
    ensures { (w : ℕ) (ws : List ℕ) (ns : List marks.Note) → IsSummary w ws notes.now ns →
        Decides result (Each (IsDownUnder directory w) ns) }
{
    match directory {
        Directory::Stache => both(notes.downs, notes.shared),
        Directory::StacheD => notes.downs,
        Directory::StacheL => both(notes.downs, notes.shared),
    }
}

/// Whether each note is one that the protocol's caches send to homes on channel 1.
fn are_up(directory: Directory, notes: &Summary) -> bool
    ensures { (w : ℕ) (ws : List ℕ) (ns : List marks.Note) → IsSummary w ws notes.now ns →
        Decides result (Each (IsUpUnder directory w) ns) }
{
    match directory {
        Directory::Stache => both(notes.ups, notes.shared),
        Directory::StacheD => notes.ups,
        Directory::StacheL => both(notes.ups, notes.shared),
    }
}

fn has_its_notes(directory: Directory, x: &Spot) -> bool
    ensures { (w n h i : ℕ) (ws : List ℕ) (home : Here) (s : marks.Spot) → IsSpot w ws x.now s →
        Decides result (CacheFits directory Third w n h home i s) }
{
    let requests = both(x.ask.gets, x.kept.gets);
    both(
        requests,
        both(are_down(directory, &x.down), are_up(directory, &x.up)),
    )
}

fn has_one_request(x: &Spot, home: &Home, node: NodeId) -> bool
    ensures { (d : Protocol) (w n h : ℕ) (ws : List ℕ) (s : marks.Spot) → IsSpot w ws x.now s →
        Decides result (CacheFits d Fourth w n h (here_in home.now) node s) }
{
    one_request(
        x.place,
        asks_ro(x, home, node).plus(x.down.data_ro),
        asks_rw(x, home, node).plus(x.down.data_rw),
    )
}

fn stands_so(directory: Directory, x: &Spot, home: &Home, node: NodeId) -> bool
    ensures { (w n h : ℕ) (ws : List ℕ) (s : marks.Spot) → IsSpot w ws x.now s →
        Decides result (CacheFits directory Fifth w n h (here_in home.now) node s) }
{
    stands(
        directory,
        home.place,
        of_home(home, node),
        &seen(x, home, node),
    )
}

fn are_same(words: Data, others: Data) -> bool
    ensures { Decides result (words ≡ others) }
{
    words == others
}

/// Whether a copy that the home may share has the home's words.
fn has_its_words(x: &Spot, home: &Home) -> bool
    ensures { (w : ℕ) (ws : List ℕ) (s : marks.Spot) → IsSpot w ws x.now s →
        Decides result (InHomeRoOrAcks (here_in home.now).state → s.state ≡ CacheRo → s.words ≡ (here_in home.now).words) }
{
    if !is_shared(home.place) {
        return true;
    }
    match x.place {
        Place::CacheRo => are_same(x.words, home.words),
        _ => true,
    }
}

/// Whether a copy on the way, which the home may share, has the home's words.
fn brings_its_words(x: &Spot, home: &Home) -> bool
    ensures { (w : ℕ) (s : marks.Spot) → IsSpot w home.now.words x.now s →
        Decides result (InHomeRoOrAcks (here_in home.now).state → Each (HasWords (here_in home.now).words) s.down) }
{
    if !is_shared(home.place) {
        return true;
    }
    x.down.same
}

/// Whether a copy that an owner of Stache_D keeps has the words that it answered.
fn answered_its_words(x: &Spot, home: &Home) -> bool
    ensures { (w : ℕ) (ws : List ℕ) (s : marks.Spot) → IsSpot w ws x.now s →
        Decides result (AnsweredUnder Protocol.StacheD (here_in home.now) s) }
{
    match (home.place, x.place) {
        (Place::HomePut, Place::CacheRo) => x.up.answered,
        _ => true,
    }
}

fn has_answered(directory: Directory, x: &Spot, home: &Home) -> bool
    ensures { (w : ℕ) (ws : List ℕ) (s : marks.Spot) → IsSpot w ws x.now s →
        Decides result (AnsweredUnder directory (here_in home.now) s) }
{
    match directory {
        Directory::Stache => true,
        Directory::StacheD => answered_its_words(x, home),
        Directory::StacheL => true,
    }
}

fn has_copy(directory: Directory, x: &Spot, home: &Home) -> bool
    ensures { (w n h i : ℕ) (s : marks.Spot) → IsSpot w home.now.words x.now s →
        Decides result (CacheFits directory Sixth w n h (here_in home.now) i s) }
{
    let coming = both(brings_its_words(x, home), has_answered(directory, x, home));
    both(has_its_words(x, home), coming)
}

/// Whether a cache is as a part of coherence asks.
pub fn cache_fits(
    directory: Directory,
    part: Part,
    x: &Spot,
    home: &Home,
    nodes: u8,
    home_node: NodeId,
    node: NodeId,
) -> bool
    ensures { (w : ℕ) (s : marks.Spot) → IsSpot w home.now.words x.now s →
        Decides result (CacheFits directory (which part) w nodes home_node (here_in home.now) node s) }
{
    match part {
        Part::First => has_tag(x),
        Part::Second => has_rest(directory, x, nodes, home_node),
        Part::Third => has_its_notes(directory, x),
        Part::Fourth => has_one_request(x, home, node),
        Part::Fifth => stands_so(directory, x, home, node),
        Part::Sixth => has_copy(directory, x, home),
        Part::Seventh => true,
    }
}

/// Whether the home has no message on a wire to itself, and deferred but its own faults.
pub fn own_places(x: &Spot) -> bool
    ensures { (w : ℕ) (ws : List ℕ) (s : marks.Spot) → IsSpot w ws x.now s → Decides result (OwnPlaces s) }
{
    x.ask.few.is_empty() && x.down.few.is_empty() && x.up.few.is_empty() && x.kept.faults
}

/// Whether it is not this home's copy alone that is whole, or there are none.
fn is_none_if_whole(place: Place, few: Few) -> bool
    ensures { (ns : List marks.Note) → IsFew few ns → Decides result (state_in place ≡ HomeRw → ns ≡ []) }
{
    match place {
        Place::HomeRw => few.is_empty(),
        _ => true,
    }
}

/// Whether the home waits at most once, and not where its copy is whole.
pub fn own_requests(x: &Spot, home: &Home) -> bool
    ensures { (w : ℕ) (ws : List ℕ) (s : marks.Spot) → IsSpot w ws x.now s → Decides result (OwnRequests (here_in home.now) s) }
{
    let faults = x.kept.rd_fault.plus(x.kept.wr_fault);
    both(
        faults.plus(held_home(home.whose)).is_at_most_one(),
        is_none_if_whole(home.place, x.kept.few),
    )
}
