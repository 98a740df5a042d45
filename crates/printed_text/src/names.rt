ghost use Rattle.std.specs.Prelude.{◌≡◌, IfOk};
ghost use Rattle.teapot_meaning.specs.Names.{error_names};
ghost use Rattle.tw_base.specs.declared.name.Name.{Name};

use std::alloc::Global;
use teapot_meaning::error_names;
use teapot_tree::Protocol;
use tw_base::{Kind, Listed, Memory, Name};

/// The names of messages, states and errors, by their numbers in a protocol. Where there is none of a number, the name has
/// no bytes.
#[derive(Debug, Drop)]
pub struct Names<'a> {
    pub protocol: &'a Protocol,
    errors: Listed<Name>,
    ghost listed: { errors ≡ error_names protocol.now },
}

impl<'a> Names<'a> {
    ghost use Rattle.printed_text.specs.Names.{error_name, kind_name, message_name, state_name};

    pub fn new(alloc: Global, protocol: &'a Protocol) -> Result<Self, Memory>
        ensures { IfOk result (λ names. names.protocol.now ≡ protocol.now) }
    {
        let errors = error_names(alloc, protocol)?;
        Ok(Names { protocol, errors })
    }

    pub fn message(&self, number: u8) -> &[u8]
        ensures { result.now ≡ message_name self.now.protocol.now number }
    {
        match self.protocol.messages.get(usize::from(number)) {
            Some(message) => message.name.bytes(),
            None => b"",
        }
    }

    pub fn kind(&self, kind: Kind) -> &[u8]
        ensures { result.now ≡ kind_name self.now.protocol.now kind }
    {
        match kind {
            Kind::RdFault => b"RD_FAULT",
            Kind::WrFault => b"WR_FAULT",
            Kind::Named(number) => self.message(number),
        }
    }

    pub fn state(&self, number: u8) -> &[u8]
        ensures { result.now ≡ state_name self.now.protocol.now number }
    {
        match self.protocol.states.get(usize::from(number)) {
            Some(state) => state.name.bytes(),
            None => b"",
        }
    }

    pub fn error(&self, number: u32) -> &[u8]
        ensures { result.now ≡ error_name self.now.protocol.now number }
    {
        match self.errors.get(number as usize) {
            Some(name) => name.bytes(),
            None => b"",
        }
    }
}
