ghost use Rattle.stache_l_protocol.specs.Laws.{TextIsStacheL};

use teapot_print::printed_trees_are_read_back;

/// The text of Stache_L is that of a tree of the grammar: the literal one, but for line numbers.
pub fn text_is_stache_l()
    ensures { TextIsStacheL }
{
    printed_trees_are_read_back();
}
