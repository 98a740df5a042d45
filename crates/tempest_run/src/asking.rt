ghost use Rattle.std.specs.Prelude.{◌≡◌, map, IfOk};
ghost use Rattle.std.specs.String.{string_bytes};
ghost use Rattle.tempest_words.specs.Words.{asked};
ghost use Rattle.tempest_run.specs.Answering.{is_threaded};
ghost use Rattle.tempest_run.specs.Asking.{asked_plain};

use std::alloc::Global;
use tempest_words::{Asked, Command, WordsError};
use tw_base::Memory;

/// Whether a command makes its run on threads.
pub fn is_threaded(command: Command) -> bool
    ensures { result ≡ is_threaded command }
{
    match command {
        Command::Run | Command::Sample(_) => true,
        Command::Serial(_) | Command::Check | Command::Code | Command::Show | Command::Table => {
            false
        }
        Command::Audit | Command::Replay(_) => false,
    }
}

/// What words ask for, None where they are no command.
pub fn asked(alloc: Global, words: &[String]) -> Result<Option<Asked>, Memory>
    ensures { IfOk result (λ q. q ≡ asked (map string_bytes words.now)) }
{
    match tempest_words::asked(alloc, words) {
        Ok(asked) => Ok(Some(asked)),
        Err(WordsError::Usage) => Ok(None),
        Err(WordsError::Memory) => Err(Memory),
    }
}

/// What words ask for of a call that waits for nothing: a run on threads is no command of it.
pub fn asked_plain(alloc: Global, words: &[String]) -> Result<Option<Asked>, Memory>
    ensures { IfOk result (λ q. q ≡ asked_plain (map string_bytes words.now)) }
{
    match asked(alloc, words)? {
        Some(asked) if is_threaded(asked.command) => Ok(None),
        asked => Ok(asked),
    }
}
