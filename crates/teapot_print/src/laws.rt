ghost use Rattle.teapot_print.specs.Back.{CanonIsReadBack};

/// What is printed is read back: the canonical text of a tree of the grammar has no lexical fault, and its lines are
/// read as a tree that is the same but for line numbers.
pub fn printed_trees_are_read_back()
    ensures { CanonIsReadBack }
{}
