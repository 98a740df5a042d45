ghost use Rattle.std.specs.Prelude.{◌≡◌, IfOk, Some};
ghost use Rattle.stache_l_tree.specs.Tree.{IsStacheL};
ghost use Rattle.stache_l_protocol.specs.Shipped.{shipped_l};

use crate::laws::text_is_stache_l;
use protocol_texts::accepted_protocol;
use stache_l_rules::stache_l_is_accepted;
use stache_l_text::stache_l_text;
use std::alloc::Global;
use teapot_tree::Checked;
use tw_base::Memory;

/// Stache_L: the tree that its text gives, and it breaks no rule. It is answered, or memory ran out.
pub fn stache_l(alloc: Global) -> Result<Checked, Memory>
    ensures text { IfOk result (λ c. shipped_l ≡ Some c) }
    ensures tree { IfOk result IsStacheL }
{
    text_is_stache_l();
    stache_l_is_accepted();
    accepted_protocol(alloc, stache_l_text())
}
