ghost use Rattle.coherence_inv.specs.Parts.{rank};
ghost use Rattle.coherence_reads.specs.Seeing.{which};

/// The parts of coherence, in their order.
#[derive(Clone, Copy)]
pub enum Part {
    First,
    Second,
    Third,
    Fourth,
    Fifth,
    Sixth,
    Seventh,
}

impl Part {
    ghost use Rattle.std.specs.Prelude.{◌≡◌};
    ghost use Rattle.coherence_inv.specs.Parts.{rank};
    ghost use Rattle.coherence_reads.specs.Seeing.{which};

    /// From 1.
    pub fn number(self) -> u8
        ensures { result ≡ rank (which self) }
    {
        match self {
            Part::First => 1,
            Part::Second => 2,
            Part::Third => 3,
            Part::Fourth => 4,
            Part::Fifth => 5,
            Part::Sixth => 6,
            Part::Seventh => 7,
        }
    }
}
