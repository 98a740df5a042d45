ghost use Rattle.std.specs.Prelude.{◌≡◌, length, slice_get, IfSome, IfOk};
ghost use Rattle.mini_asm.specs.Programs.{IsInstr, IsProgram};

use crate::Instr;
use std::alloc::Global;
use std::marker::Model;
use tw_base::{Listed, Memory};

/// At most 4,096 instructions, seen as their list. Their registers are below 16, and their places at most its length.
#[derive(Debug, Drop)]
pub struct Program {
    instrs: Listed<Instr>,
}

impl Model for Program {
    ghost use Rattle.std.specs.Prelude.{List};
    ghost use Rattle.mini_asm.specs.declared.instr.Instr.{Instr};
    ghost use Rattle.mini_asm.specs.Programs.{IsProgram};

    ghost Value = { List Instr };

    ghost view = { λ p. p.instrs };

    ghost invariant = { λ p. IsProgram p.instrs };
}

impl Program {
    pub fn of(instrs: Listed<Instr>) -> Self
        requires { IsProgram instrs }
        ensures { result ≡ instrs }
    {
        Program { instrs }
    }

    pub fn instrs(&self) -> &[Instr]
        ensures value { result.now ≡ self.now }
        ensures valid { IsProgram self.now }
    {
        self.instrs.items()
    }

    /// The instruction at a place. None past the end.
    pub fn get(&self, place: u32) -> Option<Instr>
        ensures value { result ≡ slice_get self.now place }
        ensures each { IfSome result (IsInstr (length self.now)) }
        ensures valid { IsProgram self.now }
    {
        self.instrs.get(place as usize).copied()
    }

    /// The same program again.
    pub fn copied(&self, alloc: Global) -> Result<Self, Memory>
        ensures { IfOk result (λ copy. copy ≡ self.now) }
    {
        let instrs = Listed::from_slice(alloc, self.instrs.items())?;
        Ok(Program { instrs })
    }
}
