ghost use Rattle.std.specs.Prelude.{◌≡◌, ◌+◌, ◌<◌, ◌≤◌, [], ◌∷◌, ◌++◌, length, OnOk, ◌-◌};

use std::alloc::Global;
use std::marker::Model;
use tw_base::{Act, Entry, Listed, Memory};

/// The log of a node, the oldest entry first.
#[derive(Drop)]
pub struct Log {
    entries: Vec<Entry>,
}

impl Model for Log {
    ghost use Rattle.std.specs.Prelude.{vec_capacity};
    ghost use Rattle.node_parts.specs.Parts.{Logged};

    ghost Value = { Logged };

    ghost view = { λ l. record { list = l.entries.items; room = vec_capacity l.entries } };
}

impl Log {
    ghost use Rattle.std.specs.Prelude.{vec_capacity};

    /// No entry.
    pub fn new(alloc: Global) -> Self
        ensures { result.list ≡ [] }
    {
        Log {
            entries: Vec::new(alloc),
        }
    }

    /// Makes room for one entry more.
    pub fn reserve(&mut self) -> Result<(), Memory>
        ensures same { self.new.list ≡ self.old.list }
        ensures more { self.old.room ≤ self.new.room }
        ensures ok { OnOk result (length self.new.list < self.new.room) }
    {
        self.entries.reserve(1)?;
        Ok(())
    }

    /// Puts an entry, for which there is room, behind the others.
    pub fn push(&mut self, entry: Entry)
        requires { length self.old.list < self.old.room }
        ensures { self.new ≡ record { list = self.old.list ++ entry ∷ []; room = self.old.room } }
    {
        let _parts = (entry.act, entry.after);
        self.entries.push_reserved(entry);
    }

    pub fn entries(&self) -> &[Entry]
        ensures { result.now ≡ self.now.list }
    {
        self.entries.as_slice()
    }

    /// The entries, of a log that is done with.
    pub fn into_entries(self) -> Listed<Entry>
        ensures { result ≡ self.list }
    {
        let Log { entries } = self;
        Listed::of(entries)
    }
}
