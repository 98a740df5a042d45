ghost use Rattle.std.specs.Prelude.{◌≡◌, ◌<◌, ◌≤◌, ◌↔◌, length, IsTrue, IfOk};
ghost use Rattle.std.specs.Str.{bytes_eq};
ghost use Rattle.tw_base.specs.Words.{bytes_of, HasPlaces};

use crate::Memory;
use std::alloc::Global;
use std::marker::Model;

/// How many bytes of a word are kept in the value itself; a longer word has an allocation of its own.
const SHORT: usize = 23;

/// The bytes of a word.
#[derive(Debug, Drop)]
enum Bytes {
    /// The first `len` of them.
    Short { len: u8, all: [u8; SHORT] },
    Long(Vec<u8>),
}

impl Bytes {
    fn new(alloc: Global, bytes: &[u8]) -> Result<Self, Memory>
        ensures kept { IfOk result (λ kept. bytes_of kept ≡ bytes.now) }
        ensures places { IfOk result HasPlaces }
    {
        if bytes.len() > SHORT {
            return Ok(Bytes::Long(Vec::from_slice(alloc, bytes)?));
        }
        let mut all = [0; SHORT];
        all[..bytes.len()].copy_from_slice(bytes);
        Ok(Bytes::Short {
            len: bytes.len() as u8,
            all,
        })
    }

    fn as_slice(&self) -> &[u8]
        requires { HasPlaces self.now }
        ensures { result.now ≡ bytes_of self.now }
    {
        match self {
            Bytes::Short { len, all } => &all[..usize::from(*len)],
            Bytes::Long(bytes) => bytes.as_slice(),
        }
    }
}

/// A word of 1 to 64 bytes, seen as their list.
#[derive(Debug, Drop)]
pub struct Name {
    bytes: Bytes,
}

impl Model for Name {
    ghost use Rattle.std.specs.Prelude.{List, ℕ, ◌<◌, ◌≤◌, length};
    ghost use Rattle.tw_base.specs.Words.{bytes_of, HasPlaces};

    ghost Value = { List ℕ };

    ghost view = { λ n. bytes_of n.bytes };

    ghost invariant = { λ n. HasPlaces n.bytes × (0 < length (bytes_of n.bytes)) × (length (bytes_of n.bytes) ≤ 64) };
}

impl Name {
    pub fn new(alloc: Global, bytes: &[u8]) -> Result<Self, Memory>
        requires some { 0 < length bytes.now }
        requires short { length bytes.now ≤ 64 }
        ensures { IfOk result (λ name. name ≡ bytes.now) }
    {
        Ok(Name {
            bytes: Bytes::new(alloc, bytes)?,
        })
    }

    pub fn bytes(&self) -> &[u8]
        ensures value { result.now ≡ self.now }
        ensures some { 0 < length self.now }
        ensures short { length self.now ≤ 64 }
    {
        self.bytes.as_slice()
    }

    /// Whether these are its bytes.
    pub fn is(&self, bytes: &[u8]) -> bool
        ensures test { result ≡ bytes_eq self.now bytes.now }
        ensures same { IsTrue result ↔ (self.now ≡ bytes.now) }
    {
        self.bytes() == bytes
    }

    pub fn copy(&self, alloc: Global) -> Result<Self, Memory>
        ensures { IfOk result (λ name. name ≡ self.now) }
    {
        Name::new(alloc, self.bytes())
    }
}
