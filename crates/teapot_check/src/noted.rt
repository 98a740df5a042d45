ghost use Rattle.std.specs.Prelude.{◌≡◌};
ghost use Rattle.teapot_check.specs.Marks.{mark_of};

use teapot_tree::ValType;
use tw_base::Name;

/// A variable, and the mark of its name.
#[derive(Drop)]
pub struct Noted<'a> {
    pub name: &'a Name,
    pub mark: u32,
    pub ty: Option<ValType>,
    ghost marked: { mark ≡ mark_of name.now },
}

/// Tells most names apart: the first byte, the last one and the length.
pub fn mark_of(name: &Name) -> u32
    ensures { result ≡ mark_of name.now }
{
    let bytes = name.bytes();
    let first = u32::from(bytes[0]);
    let last = u32::from(bytes[bytes.len() - 1]);
    first + 256 * last + 65536 * bytes.len() as u32
}
