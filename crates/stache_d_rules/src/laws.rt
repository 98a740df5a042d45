ghost use Rattle.stache_d_rules.specs.Laws.{StacheDIsAccepted};

/// Stache_D is accepted: the grammar gives it, and it breaks none of the rules.
pub fn stache_d_is_accepted()
    ensures { StacheDIsAccepted }
{}
