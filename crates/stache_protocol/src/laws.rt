ghost use Rattle.stache_protocol.specs.Laws.{TextIsStache};

use teapot_print::printed_trees_are_read_back;

/// The shipped text is that of a tree of the grammar: the literal one, but for line numbers.
pub fn shipped_text_is_stache()
    ensures { TextIsStache }
{
    printed_trees_are_read_back();
}
