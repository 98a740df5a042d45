ghost use Rattle.std.specs.Prelude.{◌≡◌, IfOk, Some};
ghost use Rattle.stache_d_tree.specs.Tree.{IsStacheD};
ghost use Rattle.stache_d_protocol.specs.Shipped.{shipped_d};

use crate::laws::text_is_stache_d;
use protocol_texts::accepted_protocol;
use stache_d_rules::stache_d_is_accepted;
use stache_d_text::stache_d_text;
use std::alloc::Global;
use teapot_tree::Checked;
use tw_base::Memory;

/// Stache_D: the tree that its text gives, and it breaks no rule. It is answered, or memory ran out.
pub fn stache_d(alloc: Global) -> Result<Checked, Memory>
    ensures text { IfOk result (λ c. shipped_d ≡ Some c) }
    ensures tree { IfOk result IsStacheD }
{
    text_is_stache_d();
    stache_d_is_accepted();
    accepted_protocol(alloc, stache_d_text())
}
