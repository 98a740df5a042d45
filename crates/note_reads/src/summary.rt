ghost use Rattle.std.specs.Prelude.{◌≡◌, ◌++◌, ◌∷◌, ◌+◌, [], List, ℕ, true, false};
ghost use Rattle.tw_base.specs.Lists.{how_many};
ghost use Rattle.block_spots.specs.Notes as marks;
ghost use Rattle.note_reads.specs.Counts.{IsCount};
ghost use Rattle.note_reads.specs.Notes.{IsSummary, note_in, of_sort};

use crate::{Count, Few, Note, both};
use tw_base::Data;

/// The sorts of notes that are counted.
#[derive(Clone, Copy)]
pub enum Sort {
    GetRo,
    GetRw,
    DataRo,
    DataRw,
    RdFault,
    WrFault,
}

/// What is kept of the notes of a list: the notes, where they are few, how many there are of a sort, and whether each is a
/// request, a fault, one that a home or a cache sends on channel 1, one that Stache has, no copy but of these words, and no
/// answer of another's but these.
#[derive(Clone, Copy)]
pub struct Summary {
    pub few: Few,
    pub get_ro: Count,
    pub get_rw: Count,
    pub data_ro: Count,
    pub data_rw: Count,
    pub rd_fault: Count,
    pub wr_fault: Count,
    pub gets: bool,
    pub faults: bool,
    pub downs: bool,
    pub ups: bool,
    pub shared: bool,
    pub same: bool,
    pub answered: bool,
}

fn is_of_sort(note: &Note, sort: Sort) -> bool
    ensures yes { result ≡ true → of_sort sort (note_in note.now) ≡ 1 }
    ensures no { result ≡ false → of_sort sort (note_in note.now) ≡ 0 }
{
    match sort {
        Sort::GetRo => matches!(*note, Note::GetRo),
        Sort::GetRw => matches!(*note, Note::GetRw),
        Sort::DataRo => matches!(*note, Note::DataRo(_)),
        Sort::DataRw => matches!(*note, Note::DataRw(_)),
        Sort::RdFault => matches!(*note, Note::RdFault),
        Sort::WrFault => matches!(*note, Note::WrFault),
    }
}

fn counted(count: Count, note: &Note, sort: Sort) -> Count
    ensures { (n : ℕ) → IsCount count n → IsCount result (n + of_sort sort (note_in note.now)) }
{
    if is_of_sort(note, sort) {
        count.next()
    } else {
        count
    }
}

impl Summary {
    ghost use Rattle.std.specs.Prelude.{◌≡◌, ◌++◌, ◌∷◌, [], List, ℕ};
    ghost use Rattle.block_spots.specs.Notes as marks;
    ghost use Rattle.note_reads.specs.Notes.{IsSummary, note_in};

    /// Of no notes.
    pub fn new() -> Self
        ensures { (w : ℕ) (words : List ℕ) → IsSummary w words result [] }
    {
        Summary {
            few: Few::Empty,
            get_ro: Count::Zero,
            get_rw: Count::Zero,
            data_ro: Count::Zero,
            data_rw: Count::Zero,
            rd_fault: Count::Zero,
            wr_fault: Count::Zero,
            gets: true,
            faults: true,
            downs: true,
            ups: true,
            shared: true,
            same: true,
            answered: true,
        }
    }

    /// With one more note, where a block has this many words and copies are compared with these.
    pub fn and(&self, note: &Note, count: u8, words: Data) -> Self
        ensures { (ns : List marks.Note) → IsSummary count words self.now ns →
            IsSummary count words result (ns ++ note_in note.now ∷ []) }
    {
        Summary {
            few: self.few.and(note),
            get_ro: counted(self.get_ro, note, Sort::GetRo),
            get_rw: counted(self.get_rw, note, Sort::GetRw),
            data_ro: counted(self.data_ro, note, Sort::DataRo),
            data_rw: counted(self.data_rw, note, Sort::DataRw),
            rd_fault: counted(self.rd_fault, note, Sort::RdFault),
            wr_fault: counted(self.wr_fault, note, Sort::WrFault),
            gets: both(self.gets, note.is_get()),
            faults: both(self.faults, note.is_fault()),
            downs: both(self.downs, note.is_down(count)),
            ups: both(self.ups, note.is_up(count)),
            shared: both(self.shared, note.is_of_stache()),
            same: both(self.same, note.has_words(words)),
            answered: both(self.answered, note.has_answered(words)),
        }
    }
}
