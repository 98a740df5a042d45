ghost use Rattle.std.specs.Prelude.{◌≡◌, All, IfOk};
ghost use Rattle.tw_base.specs.Answers.{Gives};
ghost use Rattle.mini_asm.specs.declared.parse.ProgramError.TheVariants.{Memory as OutOfMemory};
ghost use Rattle.mini_asm.specs.Assembled.{IsForm, is_memory, written_of, program_of};

use crate::Program;
use crate::form::Written;
use crate::labels::{code_line, codes_of, places_of};
use crate::spelling::form_of;
use std::alloc::{AllocError, AllocFailed, Global};
use tw_base::{Listed, Memory};
use tw_lex::Line;

const MAX_INSTRS: usize = 4096;

/// The first fault in the lines of a program, with the line's number in the text.
#[derive(Clone, Copy, Debug, PartialEq, Eq, thiserror::Error)]
pub enum ProgramError {
    /// Neither a label nor an instruction of the version.
    #[error("line {line} is no line of the assembly")]
    BadLine { line: u32 },
    /// The 4,097th instruction.
    #[error("the program has more than 4096 instructions, from line {line} on")]
    TooLong { line: u32 },
    /// A label that stands on an earlier line.
    #[error("the label of line {line} stands on an earlier line")]
    LabelTwice { line: u32 },
    /// A jump to a label that stands nowhere.
    #[error("no line has the label to which line {line} jumps")]
    NoLabel { line: u32 },
    #[error("out of memory")]
    Memory,
}

impl From<Memory> for ProgramError {
    ghost from_gives = { λ _ e. e ≡ OutOfMemory };

    fn from(_: Memory) -> Self {
        ProgramError::Memory
    }
}

impl From<AllocError> for ProgramError {
    ghost from_gives = { λ _ e. e ≡ OutOfMemory };

    fn from(_: AllocError) -> Self {
        ProgramError::Memory
    }
}

impl<T: Drop> From<AllocFailed<T>> for ProgramError {
    ghost from_gives = { λ _ e. e ≡ OutOfMemory };

    fn from(_: AllocFailed<T>) -> Self {
        ProgramError::Memory
    }
}

/// What each line is, or the first that is none of the assembly.
fn written_of(alloc: Global, version: u8, lines: &[Line]) -> Result<Vec<Written>, ProgramError>
    ensures value { Gives is_memory (λ v. v.items) result (written_of version lines.now) }
    ensures valid { IfOk result (λ v. All (λ w. IsForm w.form) v.items) }
{
    let mut written = Vec::new(alloc);
    for line in lines {
        let Some(form) = form_of(alloc, version, line.tokens.items())? else {
            return Err(ProgramError::BadLine { line: line.number });
        };
        written.push(Written {
            line: line.number,
            form,
        })?;
    }
    Ok(written)
}

/// The program of these lines in this version of the assembly: an instruction a line, and labels between them.
pub fn parse_program(alloc: Global, lines: &[Line], version: u8) -> Result<Program, ProgramError>
    ensures { Gives is_memory (λ p. p) result (program_of version lines.now) }
{
    let read = written_of(alloc, version, lines)?;
    let written = read.as_slice();
    if let Some(line) = code_line(MAX_INSTRS, written) {
        return Err(ProgramError::TooLong { line });
    }
    let places = places_of(alloc, written)?;
    let instrs = codes_of(alloc, &places, written)?;
    Ok(Program::of(Listed::of(instrs)))
}
