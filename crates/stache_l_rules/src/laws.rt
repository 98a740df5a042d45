ghost use Rattle.stache_l_rules.specs.Laws.{StacheLIsAccepted};

/// Stache_L is accepted: the grammar gives it, and it breaks none of the rules.
pub fn stache_l_is_accepted()
    ensures { StacheLIsAccepted }
{}
