ghost use Rattle.std.specs.Prelude.{◌≡◌, ◌≤◌, ◌<◌};
ghost use Rattle.dsm_model.specs.Globals.{setup_of, world_of};
ghost use Rattle.dsm_runs.specs.Setups.{home_of};
ghost use Rattle.block_spots.specs.Views.{seen_here};
ghost use Rattle.block_reads.specs.Tables.{reads_under};
ghost use Rattle.coherence_reads.specs.Seeing.{here_in};

use coherence_reads::{Home, acks, owner, place_seen, rest_under, sharers};
use dsm_model::{Global, Waiting};
use stache_check::Directory;
use teapot_meaning::Here;
use tw_base::{BlockId, NodeId};

pub fn nodes(g: &Global) -> u8
    ensures value { result ≡ (setup_of g.now).shape.nodes }
    ensures most { result ≤ 8 }
{
    g.setup().shape().nodes()
}

pub fn blocks(g: &Global) -> u8
    ensures value { result ≡ (setup_of g.now).shape.blocks }
    ensures most { result ≤ 64 }
{
    g.setup().shape().blocks()
}

/// How many words a block has.
pub fn words(g: &Global) -> u8
    ensures { result ≡ (setup_of g.now).shape.words }
{
    g.setup().shape().words()
}

pub fn home(g: &Global, block: BlockId) -> NodeId
    ensures value { result ≡ home_of (setup_of g.now) block }
    ensures within { result < (setup_of g.now).shape.nodes }
{
    let shape = g.setup().shape();
    let _nodes = shape.nodes();
    shape.home(block)
}

/// The messages that a node deferred.
pub fn deferred<'a>(g: &'a Global, node: NodeId) -> &'a [Waiting]
    requires { node < (setup_of g.now).shape.nodes }
    ensures { result.now ≡ ((world_of g.now).locals node).deferred }
{
    g.local(node).deferred.items()
}

/// A block as its home has it.
pub fn seen(directory: Directory, here: &Here) -> Home
    ensures { here_in result ≡ seen_here (reads_under directory) here.now }
{
    let infos = here.infos.items();
    Home {
        place: place_seen(here.state.state),
        whose: rest_under(directory, &here.state.cont),
        sharers: sharers(infos),
        owner: owner(infos),
        acks: acks(infos),
        tag: here.tag,
        words: here.words,
    }
}
