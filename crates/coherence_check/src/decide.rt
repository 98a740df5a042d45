ghost use Rattle.std.specs.Prelude.{◌≡◌, ◌≤◌, ◌<◌, MatchOption, MatchResult};
ghost use Rattle.std.specs.Bool.{Decides};
ghost use Rattle.coherence_frame.specs.Parts as frame;
ghost use Rattle.coherence_inv.specs.Parts.{IsCoherent, Part as Holds};
ghost use Rattle.stache_d_inv.specs.Parts as parts_d;
ghost use Rattle.stache_l_inv.specs.Parts as parts_l;
ghost use Rattle.dsm_model.specs.Globals.{setup_of, world_of};
ghost use Rattle.block_reads.specs.Tables.{IsProtocol};
ghost use Rattle.coherence_reads.specs.Seeing.{which};
ghost use Rattle.coherence_check.specs.Breaches.{Firstly, IsBroken, IsBrokenD, IsBrokenL, IsBrokenUnder};
ghost use Rattle.coherence_check.specs.Under.{InPartsUnder, IsCoherentUnder, PartUnder};

use crate::parts::part_holds;
use crate::reading::blocks;
use coherence_reads::Part;
use dsm_model::{Global, Setup};
use stache_check::{Directory, is_stache, is_stache_d, is_stache_l};
use tw_base::BlockId;

/// The block and the part, from 1, at which a state is not coherent.
#[derive(Clone, Copy, Debug, PartialEq, Eq)]
pub struct Broken {
    pub block: BlockId,
    pub part: u8,
}

/// The first part of a block that fails.
fn first_broken(g: &Global, directory: Directory, is_it: bool, block: BlockId) -> Option<Part>
    requires block { block < (setup_of g.now).shape.blocks }
    requires protocol { Decides is_it (IsProtocol directory (setup_of g.now).protocol) }
    ensures { MatchOption result (InPartsUnder directory (setup_of g.now) (world_of g.now) block)
        (λ p. Firstly (PartUnder directory (setup_of g.now) (world_of g.now) block) (which p)) }
{
    if !part_holds(g, directory, is_it, block, Part::First) {
        return Some(Part::First);
    }
    if !part_holds(g, directory, is_it, block, Part::Second) {
        return Some(Part::Second);
    }
    if !part_holds(g, directory, is_it, block, Part::Third) {
        return Some(Part::Third);
    }
    if !part_holds(g, directory, is_it, block, Part::Fourth) {
        return Some(Part::Fourth);
    }
    if !part_holds(g, directory, is_it, block, Part::Fifth) {
        return Some(Part::Fifth);
    }
    if !part_holds(g, directory, is_it, block, Part::Sixth) {
        return Some(Part::Sixth);
    }
    if !part_holds(g, directory, is_it, block, Part::Seventh) {
        return Some(Part::Seventh);
    }
    None
}

fn decide(g: &Global, directory: Directory, is_it: bool) -> Result<(), Broken>
    requires { Decides is_it (IsProtocol directory (setup_of g.now).protocol) }
    ensures { MatchResult result (λ _. IsCoherentUnder directory (setup_of g.now) (world_of g.now))
        (λ b. IsBrokenUnder directory (setup_of g.now) (world_of g.now) b) }
{
    for number in 0..blocks(g) {
        let block = BlockId::new(number).unwrap();
        if let Some(part) = first_broken(g, directory, is_it, block) {
            return Err(Broken {
                block,
                part: part.number(),
            });
        }
    }
    Ok(())
}

/// Whether a state is coherent under Stache, and else the first part of the least block that fails. It takes no memory.
pub fn coherent(s: &Setup, g: &Global) -> Result<(), Broken>
    requires { setup_of g.now ≡ s.now }
    ensures { MatchResult result (λ _. IsCoherent s.now (world_of g.now)) (λ b. IsBroken s.now (world_of g.now) b) }
{
    decide(g, Directory::Stache, is_stache(s.protocol().protocol()))
}

/// Whether a state is coherent under Stache_D, and else the first part of the least block that fails. It takes no memory.
pub fn coherent_d(s: &Setup, g: &Global) -> Result<(), Broken>
    requires { setup_of g.now ≡ s.now }
    ensures { MatchResult result (λ _. parts_d.IsCoherent s.now (world_of g.now)) (λ b. IsBrokenD s.now (world_of g.now) b) }
{
    decide(g, Directory::StacheD, is_stache_d(s.protocol().protocol()))
}

/// Whether a state is coherent under Stache_L, and else the first part of the least block that fails. It takes no memory.
pub fn coherent_l(s: &Setup, g: &Global) -> Result<(), Broken>
    requires { setup_of g.now ≡ s.now }
    ensures { MatchResult result (λ _. frame.IsCoherent parts_l.wording s.now (world_of g.now))
        (λ b. IsBrokenL s.now (world_of g.now) b) }
{
    decide(g, Directory::StacheL, is_stache_l(s.protocol().protocol()))
}

/// Whether a part of coherence under Stache holds of a block.
pub fn holds(g: &Global, block: BlockId, part: Part) -> bool
    requires { block < (setup_of g.now).shape.blocks }
    ensures { Decides result (Holds (setup_of g.now) (world_of g.now) block (which part)) }
{
    let is_it = is_stache(g.setup().protocol().protocol());
    part_holds(g, Directory::Stache, is_it, block, part)
}

/// Whether a part of coherence under Stache_D holds of a block.
pub fn holds_d(g: &Global, block: BlockId, part: Part) -> bool
    requires { block < (setup_of g.now).shape.blocks }
    ensures { Decides result (parts_d.Part (setup_of g.now) (world_of g.now) block (which part)) }
{
    let is_it = is_stache_d(g.setup().protocol().protocol());
    part_holds(g, Directory::StacheD, is_it, block, part)
}

/// Whether a part of coherence under Stache_L holds of a block.
pub fn holds_l(g: &Global, block: BlockId, part: Part) -> bool
    requires { block < (setup_of g.now).shape.blocks }
    ensures { Decides result (frame.Part parts_l.wording (setup_of g.now) (world_of g.now) block (which part)) }
{
    let is_it = is_stache_l(g.setup().protocol().protocol());
    part_holds(g, Directory::StacheL, is_it, block, part)
}
