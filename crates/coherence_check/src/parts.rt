ghost use Rattle.std.specs.Prelude.{ℕ, ◌≡◌, ◌≤◌, ◌<◌, [], map};
ghost use Rattle.std.specs.Bool.{Decides};
ghost use Rattle.block_spots.specs.Notes.{kept_notes};
ghost use Rattle.block_spots.specs.Views.{seen_waiting};
ghost use Rattle.coherence_inv.specs.Coherent.{IsHomeState, tag_of};
ghost use Rattle.coherence_inv.specs.Parts.{First, Second, Third, Fourth, Fifth, Sixth, Seventh, seen};
ghost use Rattle.dsm_model.specs.Globals.{setup_of, world_of};
ghost use Rattle.dsm_runs.specs.Setups.{home_of};
ghost use Rattle.block_reads.specs.Tables.{IsProtocol};
ghost use Rattle.coherence_reads.specs.Directories.{InfosUnder, RestFitsUnder};
ghost use Rattle.coherence_reads.specs.Seeing.{OwnPlaces, OwnRequests, here_in, which};
ghost use Rattle.coherence_check.specs.Under.{PartUnder, home_under, spots_under};

use crate::each::caches_fit;
use crate::node::nodes_fit;
use crate::owed::acks_fit;
use crate::reading::{deferred, home, nodes};
use crate::spot::{home_at, spot_at};
use crate::waits::implies;
use coherence_reads::{
    Home, Part, are_eligible, are_none_from, both, infos_fit, is_home, is_settled, own_places,
    own_requests, rest_fits, tag_of,
};
use dsm_model::Global;
use stache_check::Directory;
use tw_base::BlockId;

fn has_tag(x: &Home) -> bool
    ensures { Decides result (IsHomeState (here_in x.now).state × ((here_in x.now).tag ≡ tag_of (here_in x.now).state)) }
{
    is_home(x.place) && x.tag == tag_of(x.place)
}

fn home_has_tag(g: &Global, directory: Directory, block: BlockId) -> bool
    requires { block < (setup_of g.now).shape.blocks }
    ensures { Decides result (IsHomeState (home_under directory (setup_of g.now) (world_of g.now) block).state
        × ((home_under directory (setup_of g.now) (world_of g.now) block).tag
        ≡ tag_of (home_under directory (setup_of g.now) (world_of g.now) block).state)) }
{
    has_tag(&home_at(g, directory, block))
}

/// Part 1, where it is known whether the protocol is this one.
fn states_and_tags(g: &Global, directory: Directory, is_it: bool, block: BlockId) -> bool
    requires block { block < (setup_of g.now).shape.blocks }
    requires protocol { Decides is_it (IsProtocol directory (setup_of g.now).protocol) }
    ensures { Decides result (PartUnder directory (setup_of g.now) (world_of g.now) block First) }
{
    let nodes = nodes_fit(g, directory, Part::First, block);
    let caches = caches_fit(g, directory, Part::First, block);
    both(
        is_it,
        both(home_has_tag(g, directory, block), both(nodes, caches)),
    )
}

fn home_has_rest(g: &Global, directory: Directory, block: BlockId) -> bool
    requires { block < (setup_of g.now).shape.blocks }
    ensures { Decides result (RestFitsUnder directory (setup_of g.now).shape.nodes (home_of (setup_of g.now) block)
        (home_under directory (setup_of g.now) (world_of g.now) block).state
        (home_under directory (setup_of g.now) (world_of g.now) block).rest) }
{
    let own = home_at(g, directory, block);
    rest_fits(directory, nodes(g), home(g, block), own.place, own.whose)
}

fn continuations(g: &Global, directory: Directory, block: BlockId) -> bool
    requires { block < (setup_of g.now).shape.blocks }
    ensures { Decides result (PartUnder directory (setup_of g.now) (world_of g.now) block Second) }
{
    let nodes = nodes_fit(g, directory, Part::Second, block);
    let caches = caches_fit(g, directory, Part::Second, block);
    both(home_has_rest(g, directory, block), both(nodes, caches))
}

fn home_has_its_places(g: &Global, directory: Directory, block: BlockId) -> bool
    requires { block < (setup_of g.now).shape.blocks }
    ensures { Decides result
        (OwnPlaces (spots_under directory (setup_of g.now) (world_of g.now) block (home_of (setup_of g.now) block))) }
{
    let own = home_at(g, directory, block);
    own_places(&spot_at(g, directory, block, home(g, block), own.words))
}

/// Whether the home defers nothing from a node that there is not.
fn has_no_strangers(g: &Global, block: BlockId) -> bool
    ensures { Decides result ((j : ℕ) → (setup_of g.now).shape.nodes ≤ j →
        kept_notes block j ((seen (setup_of g.now) (world_of g.now)).locals (home_of (setup_of g.now) block)).deferred ≡ []) }
{
    are_none_from(deferred(g, home(g, block)), block, nodes(g))
}

fn places(g: &Global, directory: Directory, block: BlockId) -> bool
    requires { block < (setup_of g.now).shape.blocks }
    ensures { Decides result (PartUnder directory (setup_of g.now) (world_of g.now) block Third) }
{
    let nodes = nodes_fit(g, directory, Part::Third, block);
    let caches = caches_fit(g, directory, Part::Third, block);
    let own = home_has_its_places(g, directory, block);
    both(has_no_strangers(g, block), both(own, both(nodes, caches)))
}

fn home_has_its_requests(g: &Global, directory: Directory, block: BlockId) -> bool
    requires { block < (setup_of g.now).shape.blocks }
    ensures { Decides result (OwnRequests (home_under directory (setup_of g.now) (world_of g.now) block)
        (spots_under directory (setup_of g.now) (world_of g.now) block (home_of (setup_of g.now) block))) }
{
    let own = home_at(g, directory, block);
    own_requests(
        &spot_at(g, directory, block, home(g, block), own.words),
        &own,
    )
}

fn requests(g: &Global, directory: Directory, block: BlockId) -> bool
    requires { block < (setup_of g.now).shape.blocks }
    ensures { Decides result (PartUnder directory (setup_of g.now) (world_of g.now) block Fourth) }
{
    let nodes = nodes_fit(g, directory, Part::Fourth, block);
    let caches = caches_fit(g, directory, Part::Fourth, block);
    both(
        home_has_its_requests(g, directory, block),
        both(nodes, caches),
    )
}

fn home_has_infos(g: &Global, directory: Directory, block: BlockId) -> bool
    requires { block < (setup_of g.now).shape.blocks }
    ensures { Decides result (InfosUnder directory (setup_of g.now).shape.nodes (home_of (setup_of g.now) block)
        (home_under directory (setup_of g.now) (world_of g.now) block).state
        (home_under directory (setup_of g.now) (world_of g.now) block)) }
{
    infos_fit(
        directory,
        &home_at(g, directory, block),
        nodes(g),
        home(g, block),
    )
}

fn rows(g: &Global, directory: Directory, block: BlockId) -> bool
    requires { block < (setup_of g.now).shape.blocks }
    ensures { Decides result (PartUnder directory (setup_of g.now) (world_of g.now) block Fifth) }
{
    let caches = caches_fit(g, directory, Part::Fifth, block);
    both(
        home_has_infos(g, directory, block),
        both(acks_fit(g, directory, block), caches),
    )
}

fn copies(g: &Global, directory: Directory, block: BlockId) -> bool
    requires { block < (setup_of g.now).shape.blocks }
    ensures { Decides result (PartUnder directory (setup_of g.now) (world_of g.now) block Sixth) }
{
    caches_fit(g, directory, Part::Sixth, block)
}

fn all_eligible(g: &Global, directory: Directory, block: BlockId) -> bool
    requires { block < (setup_of g.now).shape.blocks }
    ensures { Decides result (PartUnder directory (setup_of g.now) (world_of g.now) block Seventh) }
{
    let own = home_at(g, directory, block);
    let eligible = are_eligible(deferred(g, home(g, block)), block);
    implies(is_settled(own.place), eligible)
}

/// Whether a part of coherence holds of a block, where it is known whether the protocol is this one.
pub fn part_holds(g: &Global, directory: Directory, is_it: bool, block: BlockId, part: Part) -> bool
    requires block { block < (setup_of g.now).shape.blocks }
    requires protocol { Decides is_it (IsProtocol directory (setup_of g.now).protocol) }
    ensures { Decides result (PartUnder directory (setup_of g.now) (world_of g.now) block (which part)) }
{
    match part {
        Part::First => states_and_tags(g, directory, is_it, block),
        Part::Second => continuations(g, directory, block),
        Part::Third => places(g, directory, block),
        Part::Fourth => requests(g, directory, block),
        Part::Fifth => rows(g, directory, block),
        Part::Sixth => copies(g, directory, block),
        Part::Seventh => all_eligible(g, directory, block),
    }
}
