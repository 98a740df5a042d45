ghost use Rattle.std.specs.Prelude.{◌≡◌, ◌+◌, IfOk};

use tw_base::Memory;

/// The sum, where it is a number of the machine.
pub fn sum(a: usize, b: usize) -> Result<usize, Memory>
    ensures { IfOk result (λ n. n ≡ a + b) }
{
    match a.checked_add(b) {
        Some(n) => Ok(n),
        None => Err(Memory),
    }
}

/// A number of a slot, an info or a state.
pub fn small(k: usize) -> Result<u8, Memory>
    ensures { IfOk result (λ n. n ≡ k) }
{
    if k < 256 { Ok(k as u8) } else { Err(Memory) }
}

/// A number of a door.
pub fn door_number(k: usize) -> Result<u16, Memory>
    ensures { IfOk result (λ n. n ≡ k) }
{
    if k < 65536 { Ok(k as u16) } else { Err(Memory) }
}

/// A place of an op, or a number of a rest.
pub fn place(at: usize) -> Result<u32, Memory>
    ensures { IfOk result (λ n. n ≡ at) }
{
    if at < 4294967296 {
        Ok(at as u32)
    } else {
        Err(Memory)
    }
}
