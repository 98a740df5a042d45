ghost use Rattle.std.specs.Prelude.{◌≡◌};
ghost use Rattle.tempest_run.specs.Answering.{reads_input};
ghost use Rattle.tempest_run.specs.Calls.{Gives, told};

use std::alloc::Global;
use tempest_words::{Asked, Command};
use tw_base::Listed;
use tw_io::{ReadError, Source, read_all};

/// How many bytes an input may have.
const MAX_INPUT: u32 = 1_048_576;

/// What was asked for, and what the source gave.
#[derive(Debug, Drop)]
pub enum Given {
    /// Nothing: the words are no command.
    NoCommand,
    /// The input has more bytes than it may have.
    TooLong,
    /// What the words ask for, and its input.
    Text(Asked, Listed<u8>),
}

/// Why an input was not got.
#[derive(Clone, Copy, Debug, PartialEq, Eq)]
pub enum Stopped {
    ReadFault,
    Memory,
}

/// Whether a command reads an input.
pub fn reads_input(command: Command) -> bool
    ensures { result ≡ reads_input command }
{
    match command {
        Command::Run | Command::Serial(_) => true,
        Command::Check | Command::Code | Command::Show => true,
        Command::Audit | Command::Replay(_) => true,
        Command::Table | Command::Sample(_) => false,
    }
}

/// Reads the input of what is asked for, if something is.
pub fn read_given<S: Source>(
    alloc: Global,
    asked: Option<Asked>,
    source: &mut S,
) -> Result<Given, Stopped>
    ensures { Gives asked (told (S.left source.old) (S.faults source.old))
        (told (S.left source.new) (S.faults source.new)) result }
{
    let Some(asked) = asked else {
        return Ok(Given::NoCommand);
    };
    if !reads_input(asked.command) {
        return Ok(Given::Text(asked, Listed::new(alloc)));
    }
    match read_all(alloc, source, MAX_INPUT) {
        Ok(text) => Ok(Given::Text(asked, Listed::of(text))),
        Err(ReadError::TooLong) => Ok(Given::TooLong),
        Err(ReadError::Fault) => Err(Stopped::ReadFault),
        Err(ReadError::Memory) => Err(Stopped::Memory),
    }
}
