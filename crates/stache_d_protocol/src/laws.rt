ghost use Rattle.stache_d_protocol.specs.Laws.{TextIsStacheD};

use teapot_print::printed_trees_are_read_back;

/// The text of Stache_D is that of a tree of the grammar: the literal one, but for line numbers.
pub fn text_is_stache_d()
    ensures { TextIsStacheD }
{
    printed_trees_are_read_back();
}
