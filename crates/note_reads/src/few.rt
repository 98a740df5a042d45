ghost use Rattle.std.specs.Prelude.{◌≡◌, ◌++◌, ◌∷◌, [], List};
ghost use Rattle.std.specs.Bool.{Decides};
ghost use Rattle.block_spots.specs.Notes as marks;
ghost use Rattle.note_reads.specs.Notes.{IsFew, note_in};

use crate::Note;

/// The notes of a list, where there are at most two.
#[derive(Clone, Copy)]
pub enum Few {
    Empty,
    One(Note),
    Two(Note, Note),
    More,
}

impl Few {
    ghost use Rattle.std.specs.Prelude.{◌≡◌, ◌++◌, ◌∷◌, [], List};
    ghost use Rattle.std.specs.Bool.{Decides};
    ghost use Rattle.block_spots.specs.Notes as marks;
    ghost use Rattle.note_reads.specs.Notes.{IsFew, note_in};

    #[tactic(auto, using(crate::proofs::Lists::longer))]
    pub fn and(self, note: &Note) -> Few
        ensures { (ns : List marks.Note) → IsFew self ns → IsFew result (ns ++ note_in note.now ∷ []) }
    {
        match self {
            Few::Empty => Few::One(*note),
            Few::One(first) => Few::Two(first, *note),
            Few::Two(_, _) => Few::More,
            Few::More => Few::More,
        }
    }

    pub fn is_empty(self) -> bool
        ensures { (ns : List marks.Note) → IsFew self ns → Decides result (ns ≡ []) }
    {
        matches!(self, Few::Empty)
    }
}
