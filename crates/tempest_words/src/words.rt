ghost use Rattle.std.specs.Prelude.{◌≡◌, map};
ghost use Rattle.std.specs.String.{string_bytes};
ghost use Rattle.tw_base.specs.Answers.{Gives};
ghost use Rattle.tempest_words.specs.declared.words.WordsError.TheVariants.{Memory as OutOfMemory};
ghost use Rattle.tempest_words.specs.Errors.{asked_or_usage, is_memory};

use crate::Asked;
use crate::parting::parted;
use std::alloc::{AllocError, Global};

/// Why words ask for nothing.
#[derive(Clone, Copy, Debug, PartialEq, Eq, thiserror::Error)]
pub enum WordsError {
    #[error("the words are no command")]
    Usage,
    #[error("out of memory")]
    Memory,
}

impl From<AllocError> for WordsError {
    ghost from_gives = { λ _ e. e ≡ OutOfMemory };

    fn from(_: AllocError) -> Self {
        WordsError::Memory
    }
}

/// What the words ask for.
#[tactic(auto, unfolding(crate::specs::Words::asked))]
pub fn asked(alloc: Global, words: &[String]) -> Result<Asked, WordsError>
    ensures { Gives is_memory (λ a. a) result (asked_or_usage (map string_bytes words.now)) }
{
    parted(alloc, words)?.asked().ok_or(WordsError::Usage)
}
