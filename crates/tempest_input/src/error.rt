ghost use Rattle.std.specs.Prelude.{◌≡◌};
ghost use Rattle.tempest_input.specs.declared.error.InputError.TheVariants.{Memory as OutOfMemory};

use std::alloc::{AllocError, AllocFailed};
use tw_base::Memory;

/// Why a text is refused.
#[derive(Clone, Copy, Debug, PartialEq, Eq)]
pub enum Why {
    /// A byte that may stand only in a comment.
    NotAscii,
    BadToken,
    /// A line of no form, or one that does not fit at its place.
    BadLine,
    /// A number outside of its limits.
    OutOfRange,
    /// A second start value of a word, or a second program of a node.
    Repeated,
    /// More instructions than a program may have.
    TooLong,
    LabelTwice,
    NoLabel,
    /// A line of a protocol that cannot stand at its place.
    BadNest,
    /// More of something in a protocol than it may have.
    TooMany,
    /// A name in a protocol that is not declared, or not visible there.
    Undeclared,
    /// A second declaration of what is declared once.
    Twice,
    /// An operator, a statement or an argument that takes no value of this type.
    WrongType,
    /// More or fewer arguments than are declared.
    ArgCount,
    /// A state with no handler for all else.
    NoDefault,
    /// A continuation that is dropped.
    ContDropped,
    /// A resumption that something follows.
    ResumeNotLast,
    /// A resumption of a continuation that is not that of the handler's state.
    ResumeForeign,
    /// The message at hand is deferred or installed after a suspension.
    AfterSuspend,
    /// An installation of data that did not come with the message.
    NoData,
    /// A handler that may send more messages than it may.
    TooManySends,
    /// A protocol that has not one start of each kind.
    NotTwoStarts,
}

/// A text is refused at a line, from 1 on; or there is not enough memory.
#[derive(Clone, Copy, Debug, PartialEq, Eq, thiserror::Error)]
pub enum InputError {
    #[error("line {line} is refused: {why:?}")]
    Refused { line: u32, why: Why },
    #[error("out of memory")]
    Memory,
}

impl From<Memory> for InputError {
    ghost from_gives = { λ _ e. e ≡ OutOfMemory };

    fn from(_: Memory) -> Self {
        InputError::Memory
    }
}

impl From<AllocError> for InputError {
    ghost from_gives = { λ _ e. e ≡ OutOfMemory };

    fn from(_: AllocError) -> Self {
        InputError::Memory
    }
}

impl<T: Drop> From<AllocFailed<T>> for InputError {
    ghost from_gives = { λ _ e. e ≡ OutOfMemory };

    fn from(_: AllocFailed<T>) -> Self {
        InputError::Memory
    }
}
