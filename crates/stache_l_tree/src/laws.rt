ghost use Rattle.stache_l_tree.specs.Laws.{LiteralIsStacheL};

/// The literal tree is Stache_L itself: its lines are 0.
pub fn literal_is_stache_l()
    ensures { LiteralIsStacheL }
{}
