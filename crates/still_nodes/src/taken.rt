ghost use Rattle.std.specs.Prelude.{◌≡◌, ◌<◌, [], ◌∷◌, ◌++◌, length, OnOk};

use std::alloc::Global;
use std::marker::Model;
use tw_base::{Entry, Listed, Memory};

/// The entries of the events that were made, in the order made.
#[derive(Drop)]
pub(crate) struct TakenEntries {
    entries: Vec<Entry>,
}

impl Model for TakenEntries {
    ghost use Rattle.std.specs.Prelude.{vec_capacity};
    ghost use Rattle.node_parts.specs.Parts.{Logged};

    ghost Value = { Logged };

    ghost view = { λ l. record { list = l.entries.items; room = vec_capacity l.entries } };
}

impl TakenEntries {
    ghost use Rattle.std.specs.Prelude.{vec_capacity};

    /// No entry.
    pub(crate) fn new(alloc: Global) -> Self
        ensures { result.list ≡ [] }
    {
        TakenEntries {
            entries: Vec::new(alloc),
        }
    }

    /// Makes room for one entry more.
    pub(crate) fn reserve(&mut self) -> Result<(), Memory>
        ensures same { self.new.list ≡ self.old.list }
        ensures ok { OnOk result (length self.new.list < self.new.room) }
    {
        self.entries.reserve(1)?;
        Ok(())
    }

    /// Puts an entry, for which there is room, behind the others.
    pub(crate) fn push(&mut self, entry: &Entry)
        requires { length self.old.list < self.old.room }
        ensures { self.new ≡ record { list = self.old.list ++ entry.now ∷ []; room = self.old.room } }
    {
        let entry = *entry;
        let _parts = (entry.act, entry.after);
        self.entries.push_reserved(entry);
    }

    pub(crate) fn entries(&self) -> &[Entry]
        ensures { result.now ≡ self.now.list }
    {
        self.entries.as_slice()
    }

    pub(crate) fn into_listed(self) -> Listed<Entry>
        ensures { result ≡ self.list }
    {
        let TakenEntries { entries } = self;
        Listed::of(entries)
    }
}
