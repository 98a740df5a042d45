ghost use Rattle.stache_tree.specs.Laws.{LiteralIsShipped};

/// The literal tree is Stache itself: its lines are 0.
pub fn literal_is_shipped()
    ensures { LiteralIsShipped }
{}
