ghost use Rattle.std.specs.Prelude.{◌≡◌, IfOk, Some};
ghost use Rattle.stache_tree.specs.Tree.{IsStache};
ghost use Rattle.stache_protocol.specs.Shipped.{shipped};

use crate::laws::shipped_text_is_stache;
use protocol_texts::accepted_protocol;
use shipped_text::stache_text;
use stache_rules::stache_is_accepted;
use std::alloc::Global;
use teapot_tree::Checked;
use tw_base::Memory;

/// Stache: the tree that its text gives, and it breaks no rule. It is answered, or memory ran out.
pub fn stache(alloc: Global) -> Result<Checked, Memory>
    ensures text { IfOk result (λ c. shipped ≡ Some c) }
    ensures tree { IfOk result IsStache }
{
    shipped_text_is_stache();
    stache_is_accepted();
    accepted_protocol(alloc, stache_text())
}
