ghost use Rattle.std.specs.Prelude.{ℕ, ◌≡◌, length};
ghost use Rattle.std.specs.Bool.{Decides};
ghost use Rattle.block_spots.specs.Notes as marks;
ghost use Rattle.block_spots.specs.Views.{seen_message, words_in};
ghost use Rattle.coherence_inv.specs.Coherent.{HasWords, IsFault, IsGet};
ghost use Rattle.stache_d_inv.specs.Coherent.{HasAnswered};
ghost use Rattle.stache_d_inv.specs.Parts.{IsDown, IsUp};
ghost use Rattle.note_reads.specs.Notes.{IsOfStache, note_in};

use tw_base::{Data, Kind, Message};

/// What a message says.
#[derive(Clone, Copy)]
pub enum Note {
    RdFault,
    WrFault,
    GetRo,
    GetRw,
    DataRo(Option<Data>),
    DataRw(Option<Data>),
    Put(Option<Data>),
    Inv,
    Ack,
    Recall,
    RecallRo,
    PutRo(Option<Data>),
}

#[tactic(auto, using(crate::proofs::Lists::past_kind))]
pub fn note_of(m: &Message) -> Note
    ensures { note_in result ≡ marks.note (seen_message m.now) }
{
    match m.kind {
        Kind::RdFault => Note::RdFault,
        Kind::WrFault => Note::WrFault,
        Kind::Named(number) => match number {
            0 => Note::GetRo,
            1 => Note::GetRw,
            2 => Note::DataRo(m.payload),
            3 => Note::DataRw(m.payload),
            4 => Note::Put(m.payload),
            5 => Note::Inv,
            6 => Note::Ack,
            7 => Note::Recall,
            8 => Note::RecallRo,
            9 => Note::PutRo(m.payload),
            _ => Note::GetRo,
        },
    }
}

/// Whether data has this many words.
fn has_length(payload: Option<Data>, words: u8) -> bool
    ensures { Decides result (length (words_in payload) ≡ words) }
{
    match payload {
        Some(data) => data.len == words,
        None => words == 0,
    }
}

/// Whether data is these words.
fn has_words(payload: Option<Data>, words: Data) -> bool
    ensures { Decides result (words_in payload ≡ words) }
{
    match payload {
        Some(data) => data == words,
        None => words.len == 0,
    }
}

impl Note {
    ghost use Rattle.std.specs.Bool.{Decides};
    ghost use Rattle.coherence_inv.specs.Coherent.{HasWords, IsFault, IsGet};
    ghost use Rattle.stache_d_inv.specs.Coherent.{HasAnswered};
    ghost use Rattle.stache_d_inv.specs.Parts.{IsDown, IsUp};
    ghost use Rattle.note_reads.specs.Notes.{IsOfStache, note_in};

    pub fn is_get(&self) -> bool
        ensures { Decides result (IsGet (note_in self.now)) }
    {
        matches!(*self, Note::GetRo | Note::GetRw)
    }

    pub fn is_fault(&self) -> bool
        ensures { Decides result (IsFault (note_in self.now)) }
    {
        matches!(*self, Note::RdFault | Note::WrFault)
    }

    /// Whether a home sends it to a cache on channel 1, where a block has this many words.
    pub fn is_down(&self, words: u8) -> bool
        ensures { Decides result (IsDown words (note_in self.now)) }
    {
        match *self {
            Note::DataRo(payload) => has_length(payload, words),
            Note::DataRw(payload) => has_length(payload, words),
            Note::Inv => true,
            Note::Recall => true,
            Note::RecallRo => true,
            _ => false,
        }
    }

    /// Whether a cache sends it to a home on channel 1, where a block has this many words.
    pub fn is_up(&self, words: u8) -> bool
        ensures { Decides result (IsUp words (note_in self.now)) }
    {
        match *self {
            Note::Put(payload) => has_length(payload, words),
            Note::PutRo(payload) => has_length(payload, words),
            Note::Ack => true,
            _ => false,
        }
    }

    /// Whether Stache has such a message: all but the recall that leaves the owner its copy, and its answer.
    pub fn is_of_stache(&self) -> bool
        ensures { Decides result (IsOfStache (note_in self.now)) }
    {
        !matches!(*self, Note::RecallRo | Note::PutRo(_))
    }

    /// Whether these are the words that it answers, where its sender keeps its copy.
    pub fn has_answered(&self, words: Data) -> bool
        ensures { Decides result (HasAnswered words (note_in self.now)) }
    {
        match *self {
            Note::PutRo(payload) => has_words(payload, words),
            _ => true,
        }
    }

    /// Whether a copy that it brings has these words.
    pub fn has_words(&self, words: Data) -> bool
        ensures { Decides result (HasWords words (note_in self.now)) }
    {
        match *self {
            Note::DataRo(payload) => has_words(payload, words),
            _ => true,
        }
    }
}
