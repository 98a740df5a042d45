ghost use Rattle.std.specs.Prelude.{◌≡◌, ◌*◌, ◌<◌, if◌then◌else◌};
ghost use Rattle.block_tags.specs.Copies.{allows};

use block_tags::Blocks;
use tw_base::Access;

/// What a check of a block's tag finds.
#[derive(Clone, Copy, Debug, PartialEq, Eq)]
pub enum Looked {
    /// The tag allows the access.
    Hit,
    /// The tag refuses it.
    Miss,
}

/// Checks the tag of an address's block. The address is below the size of the memory.
pub fn check_access(blocks: &Blocks, a: Access) -> Looked
    requires { a.address < blocks.now.shape.words * blocks.now.shape.blocks }
    ensures { result ≡ (if allows blocks.now a.store a.address then Looked.Hit else Looked.Miss) }
{
    if blocks.allows(a) {
        Looked::Hit
    } else {
        Looked::Miss
    }
}
