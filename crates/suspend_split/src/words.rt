ghost use Rattle.std.specs.Prelude.{◌≡◌, IfOk};
ghost use Rattle.teapot_meaning.specs.Names.{error_names};
ghost use Rattle.tw_base.specs.declared.name.Name.{Name};

use std::alloc::Global;
use teapot_meaning::ErrorNames;
use teapot_tree::Checked;
use tw_base::{Memory, Name};

/// A protocol, and the names of its errors.
#[derive(Drop)]
pub struct Words<'a> {
    pub protocol: &'a Checked,
    errors: ErrorNames,
    ghost listed: { errors ≡ error_names protocol.now },
}

impl<'a> Words<'a> {
    ghost use Rattle.teapot_meaning.specs.Names.{error_number};

    pub fn new(alloc: Global, protocol: &'a Checked) -> Result<Self, Memory>
        ensures { IfOk result (λ words. words.protocol.now ≡ protocol.now) }
    {
        let errors = ErrorNames::of(alloc, protocol.protocol())?;
        Ok(Words { protocol, errors })
    }

    /// The number of an error's name.
    pub fn error(&self, name: &Name) -> u32
        ensures { result ≡ error_number self.now.protocol.now name.now }
    {
        self.errors.number(name.bytes())
    }
}
