ghost use Rattle.stache_rules.specs.Laws.{StacheIsAccepted};

/// Stache is accepted: the grammar gives it, and it breaks none of the rules.
pub fn stache_is_accepted()
    ensures { StacheIsAccepted }
{}
