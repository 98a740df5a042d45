ghost use Rattle.std.specs.Prelude.{ℕ, ◌≡◌, ◌≤◌, ◌+◌, ◌&&◌};
ghost use Rattle.std.specs.Bool.{Decides};
ghost use Rattle.note_reads.specs.Counts.{IsCount};

pub fn both(first: bool, second: bool) -> bool
    ensures { result ≡ first && second }
{
    first && second
}

/// A number, as far as it matters whether it is 0 or 1.
#[derive(Clone, Copy)]
pub enum Count {
    Zero,
    One,
    More,
}

impl Count {
    ghost use Rattle.std.specs.Prelude.{ℕ, ◌≡◌, ◌≤◌, ◌+◌};
    ghost use Rattle.std.specs.Bool.{Decides};
    ghost use Rattle.note_reads.specs.Counts.{IsCount};

    pub fn is_zero(self) -> bool
        ensures { (n : ℕ) → IsCount self n → Decides result (n ≡ 0) }
    {
        matches!(self, Count::Zero)
    }

    pub fn is_one(self) -> bool
        ensures { (n : ℕ) → IsCount self n → Decides result (n ≡ 1) }
    {
        matches!(self, Count::One)
    }

    pub fn is_at_most_one(self) -> bool
        ensures { (n : ℕ) → IsCount self n → Decides result (n ≤ 1) }
    {
        !matches!(self, Count::More)
    }

    pub fn next(self) -> Count
        ensures { (n : ℕ) → IsCount self n → IsCount result (n + 1) }
    {
        match self {
            Count::Zero => Count::One,
            _ => Count::More,
        }
    }

    pub fn plus(self, other: Count) -> Count
        ensures { (n k : ℕ) → IsCount self n → IsCount other k → IsCount result (n + k) }
    {
        match (self, other) {
            (Count::Zero, _) => other,
            (_, Count::Zero) => self,
            _ => Count::More,
        }
    }
}
