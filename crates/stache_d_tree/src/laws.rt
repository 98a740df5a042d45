ghost use Rattle.stache_d_tree.specs.Laws.{LiteralIsStacheD};

/// The literal tree is Stache_D itself: its lines are 0.
pub fn literal_is_stache_d()
    ensures { LiteralIsStacheD }
{}
