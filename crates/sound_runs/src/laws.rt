ghost use Rattle.sound_runs.specs.Sound.{ShippedAreSoundToTheirEnd};
ghost use Rattle.sound_runs.specs.Stamps.{StampsAreSound};

/// In every run each node's stamps rise, no stamp is past the number of events, which the budgets bound, and no clock comes to
/// its last value.
pub fn stamps_are_sound()
    ensures { StampsAreSound }
{}

/// Under a shipped protocol a run that came to rest is sound: no handler met an `Error`, messages were few and no budget of
/// them was spent, nothing is in flight, deferred or blocked, each node halted, trapped or spent its instructions and is told
/// so, and an access that was refused is the next that its node completed.
pub fn shipped_are_sound_to_their_end()
    ensures { ShippedAreSoundToTheirEnd }
{}
