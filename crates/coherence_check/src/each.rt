ghost use Rattle.std.specs.Prelude.{◌≡◌, ◌≢◌, ◌<◌};
ghost use Rattle.std.specs.Bool.{Decides};
ghost use Rattle.dsm_model.specs.Globals.{setup_of, world_of};
ghost use Rattle.dsm_runs.specs.Setups.{home_of};
ghost use Rattle.coherence_inv.specs.Parts.{EachCache};
ghost use Rattle.coherence_reads.specs.Seeing.{which};
ghost use Rattle.coherence_check.specs.Nodes.{CacheAt};

use crate::reading::{home, nodes};
use crate::spot::{home_at, spot_at};
use coherence_reads::{Part, cache_fits};
use dsm_model::Global;
use stache_check::Directory;
use tw_base::{BlockId, NodeId};

fn cache_at(g: &Global, directory: Directory, part: Part, block: BlockId, node: NodeId) -> bool
    requires node { node < (setup_of g.now).shape.nodes }
    requires block { block < (setup_of g.now).shape.blocks }
    ensures { Decides result (CacheAt directory (which part) (setup_of g.now) (world_of g.now) block node) }
{
    let own = home_at(g, directory, block);
    let spot = spot_at(g, directory, block, node, own.words);
    cache_fits(directory, part, &spot, &own, nodes(g), home(g, block), node)
}

/// Whether it is the home, or a cache as the part asks.
fn cache_or_home(g: &Global, directory: Directory, part: Part, block: BlockId, node: NodeId) -> bool
    requires node { node < (setup_of g.now).shape.nodes }
    requires block { block < (setup_of g.now).shape.blocks }
    ensures { Decides result (node ≢ home_of (setup_of g.now) block →
        CacheAt directory (which part) (setup_of g.now) (world_of g.now) block node) }
{
    if node == home(g, block) {
        return true;
    }
    cache_at(g, directory, part, block, node)
}

/// Whether each cache is as the part asks.
pub fn caches_fit(g: &Global, directory: Directory, part: Part, block: BlockId) -> bool
    requires { block < (setup_of g.now).shape.blocks }
    ensures { Decides result (EachCache (setup_of g.now).shape.nodes (home_of (setup_of g.now) block)
        (CacheAt directory (which part) (setup_of g.now) (world_of g.now) block)) }
{
    for number in 0..nodes(g) {
        let node = NodeId::new(number).unwrap();
        if !cache_or_home(g, directory, part, block, node) {
            return false;
        }
    }
    true
}
