ghost use Rattle.std.specs.Prelude.{◌≡◌, [], ◌++◌, OnOk};
ghost use Rattle.std.specs.Fmt.{AppendsText};

use std::alloc::Global;
use std::fmt::{self, Display, Write};
use std::marker::Model;
use tw_base::Memory;

/// Bytes of text, seen as their list.
#[derive(Debug, Drop)]
pub struct Text {
    bytes: Vec<u8>,
}

impl Model for Text {
    ghost use Rattle.std.specs.Prelude.{List, ℕ};

    ghost Value = { List ℕ };

    ghost view = { λ t. t.bytes.items };
}

impl Write for Text {
    ghost write_str_gives = { λ before piece after. after ≡ before ++ piece };

    fn write_str(&mut self, piece: &str) -> fmt::Result {
        match self.add(piece.as_bytes()) {
            Ok(()) => Ok(()),
            Err(_) => Err(fmt::Error),
        }
    }
}

impl Text {
    pub fn new(alloc: Global) -> Self
        ensures { result ≡ [] }
    {
        Text {
            bytes: Vec::new(alloc),
        }
    }

    pub fn add(&mut self, bytes: &[u8]) -> Result<(), Memory>
        ensures { OnOk result (self.new ≡ self.old ++ bytes.now) }
    {
        self.bytes.extend_from_slice(bytes)?;
        Ok(())
    }

    /// What `write!` and `writeln!` call.
    pub fn write_fmt<D: Display + Drop>(&mut self, value: D) -> Result<(), Memory>
        ensures { OnOk result (AppendsText self.old self.new (D.output value)) }
    {
        match self.write(value) {
            Ok(()) => Ok(()),
            Err(_) => Err(Memory),
        }
    }

    pub fn into_vec(self) -> Vec<u8>
        ensures { result.items ≡ self }
    {
        let Text { bytes } = self;
        bytes
    }
}
