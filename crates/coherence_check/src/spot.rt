ghost use Rattle.std.specs.Prelude.{◌≡◌, ◌<◌};
ghost use Rattle.dsm_model.specs.Globals.{setup_of, world_of};
ghost use Rattle.coherence_reads.specs.Seeing.{IsSpot, here_in};
ghost use Rattle.coherence_check.specs.Under.{home_under, spots_under};

use crate::reading::{deferred, home, seen, words};
use crate::wire::said;
use coherence_reads::{Home, Spot, kept_of, place_seen, rest_under};
use dsm_model::Global;
use stache_check::Directory;
use tw_base::{BlockId, Chan, Data, NodeId};

/// A block at its home.
pub fn home_at(g: &Global, directory: Directory, block: BlockId) -> Home
    requires { block < (setup_of g.now).shape.blocks }
    ensures { here_in result ≡ home_under directory (setup_of g.now) (world_of g.now) block }
{
    seen(directory, g.block(home(g, block), block))
}

/// A block at a node, where the home's words are these.
pub fn spot_at(
    g: &Global,
    directory: Directory,
    block: BlockId,
    node: NodeId,
    at_home: Data,
) -> Spot
    requires node { node < (setup_of g.now).shape.nodes }
    requires block { block < (setup_of g.now).shape.blocks }
    ensures { IsSpot (setup_of g.now).shape.words at_home result
        (spots_under directory (setup_of g.now) (world_of g.now) block node) }
{
    let to = home(g, block);
    let here = g.block(node, block);
    Spot {
        place: place_seen(here.state.state),
        whose: rest_under(directory, &here.state.cont),
        tag: here.tag,
        words: here.words,
        ask: said(g, node, to, Chan::Zero, block, at_home),
        kept: kept_of(deferred(g, to), block, node, words(g), at_home),
        down: said(g, to, node, Chan::One, block, at_home),
        up: said(g, node, to, Chan::One, block, here.words),
    }
}
