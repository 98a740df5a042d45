ghost use Rattle.std.specs.Prelude.{◌≡◌, ◌+◌, ◌<◌, ◌≤◌, ◌^◌, length, IfSome};
ghost use Rattle.mini_asm.specs.Machine.{access, fetch_and_add, written, with_written, place_after};
ghost use Rattle.mini_asm.specs.Programs.{HasRegisters};

use crate::{Instr, Program};
use tw_base::Trap;

/// The registers of a processor, and the number of its next instruction.
#[derive(Clone, Copy, Debug, PartialEq, Eq)]
pub struct Cpu {
    pub regs: [u64; 16],
    pub place: u32,
}

/// What the next instruction asks for.
#[derive(Clone, Copy, Debug, PartialEq, Eq)]
pub enum Next {
    /// A store of `value`, or a load, where `value` is 0.
    Access {
        store: bool,
        address: u32,
        value: u64,
    },
    /// The word is to be loaded, and the word plus `added` to be stored, in one access.
    Faa {
        address: u32,
        added: u64,
    },
    Trap(Trap),
    Halt,
    Print(u64),
    /// Registers and place alone.
    Step,
}

fn access(store: bool, address: u64, value: u64, size: u64) -> Next
    requires { size ≤ 2 ^ 32 }
    ensures { result ≡ access store address value size }
{
    if address < size {
        Next::Access {
            store,
            address: address as u32,
            value,
        }
    } else {
        Next::Trap(Trap::BadAddress)
    }
}

fn fetch_and_add(address: u64, added: u64, size: u64) -> Next
    requires { size ≤ 2 ^ 32 }
    ensures { result ≡ fetch_and_add address added size }
{
    if address < size {
        Next::Faa {
            address: address as u32,
            added,
        }
    } else {
        Next::Trap(Trap::BadAddress)
    }
}

impl Instr {
    ghost use Rattle.std.specs.Prelude.{Some};
    ghost use Rattle.mini_asm.specs.Machine.{asks};

    /// What it asks for, where a processor has these registers and the memory `size` words. An address is modulo 2^64
    /// before it is compared with the size.
    pub fn asks(self, regs: &[u64; 16], size: u64) -> Next
        requires registers { HasRegisters self }
        requires size { size ≤ 2 ^ 32 }
        ensures { result ≡ asks (Some self) regs.now size }
    {
        match self {
            Instr::Ld(_, a, n) => access(false, regs[a as usize].wrapping_add(n), 0, size),
            Instr::St(s, a, n) => {
                let address = regs[a as usize].wrapping_add(n);
                access(true, address, regs[s as usize], size)
            }
            Instr::Faa(_, s, a, n) => {
                let address = regs[a as usize].wrapping_add(n);
                fetch_and_add(address, regs[s as usize], size)
            }
            Instr::Print(a) => Next::Print(regs[a as usize]),
            Instr::Halt => Next::Halt,
            _ => Next::Step,
        }
    }
}

impl Cpu {
    ghost use Rattle.std.specs.Prelude.{Some};
    ghost use Rattle.mini_asm.specs.Machine.{next_of, completed, finish_of};
    ghost use Rattle.mini_asm.specs.Run.{first_cpu};

    /// All registers 0, at the first instruction.
    pub fn new() -> Self
        ensures { result ≡ first_cpu }
    {
        Cpu {
            regs: [0; 16],
            place: 0,
        }
    }

    /// What the instruction at the place asks for, in a memory of `size` words.
    pub fn next(&self, program: &Program, size: u64) -> Next
        requires { size ≤ 2 ^ 32 }
        ensures { result ≡ next_of program.now self.now size }
    {
        match program.get(self.place) {
            Some(instr) => instr.asks(&self.regs, size),
            None => Next::Trap(Trap::FellOff),
        }
    }

    /// Completes an instruction. `loaded` is the word that it loads, if it loads one.
    pub fn complete(&mut self, instr: Instr, loaded: u64)
        requires registers { HasRegisters instr }
        requires room { self.old.place + 1 < 2 ^ 32 }
        ensures { self.new ≡ completed (Some instr) self.old loaded }
    {
        let place = place_after(&self.regs, instr, self.place);
        let written = written(&self.regs, instr, loaded);
        write(&mut self.regs, written);
        self.place = place;
    }

    /// Completes the instruction at the place. `loaded` is the word that it loads, if it loads one.
    pub fn finish(&mut self, program: &Program, loaded: u64)
        requires { self.old.place < length program.now }
        ensures value { self.new ≡ finish_of program.now self.old loaded }
        ensures within { self.new.place ≤ length program.now }
    {
        if let Some(instr) = program.get(self.place) {
            self.complete(instr, loaded);
        }
    }
}

/// The register that an instruction writes, and what.
fn written(regs: &[u64; 16], instr: Instr, loaded: u64) -> Option<(u8, u64)>
    requires { HasRegisters instr }
    ensures value { result ≡ written instr regs.now loaded }
    ensures below { IfSome result (λ w. w.0 < 16) }
{
    match instr {
        Instr::Li(d, n) => Some((d, n)),
        Instr::Mov(d, a) => Some((d, regs[a as usize])),
        Instr::Add(d, a, b) => Some((d, regs[a as usize].wrapping_add(regs[b as usize]))),
        Instr::Sub(d, a, b) => Some((d, regs[a as usize].wrapping_sub(regs[b as usize]))),
        Instr::And(d, a, b) => Some((d, regs[a as usize] & regs[b as usize])),
        Instr::Or(d, a, b) => Some((d, regs[a as usize] | regs[b as usize])),
        Instr::Xor(d, a, b) => Some((d, regs[a as usize] ^ regs[b as usize])),
        Instr::Ld(d, _, _) | Instr::Faa(d, _, _, _) => Some((d, loaded)),
        _ => None,
    }
}

// Register 0 stays 0.
fn write(regs: &mut [u64; 16], written: Option<(u8, u64)>)
    requires { IfSome written (λ w. w.0 < 16) }
    ensures { regs.new ≡ with_written written regs.old }
{
    if let Some((d, value)) = written {
        if d != 0 {
            regs[d as usize] = value;
        }
    }
}

fn place_after(regs: &[u64; 16], instr: Instr, at: u32) -> u32
    requires registers { HasRegisters instr }
    requires room { at + 1 < 2 ^ 32 }
    ensures { result ≡ place_after instr regs.now at }
{
    match instr {
        Instr::Beq(a, b, place) if regs[a as usize] == regs[b as usize] => place,
        Instr::Bne(a, b, place) if regs[a as usize] != regs[b as usize] => place,
        Instr::Blt(a, b, place) if regs[a as usize] < regs[b as usize] => place,
        Instr::Jmp(place) => place,
        Instr::Halt => at,
        _ => at + 1,
    }
}
