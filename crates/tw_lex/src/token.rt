ghost use Rattle.std.specs.Prelude.{◌≡◌};
ghost use Rattle.tw_lex.specs.declared.token.LexError.TheVariants.{Memory as OutOfMemory};

use std::alloc::{AllocError, AllocFailed};
use tw_base::{Listed, Memory, Name};

#[derive(Clone, Copy, Debug, PartialEq, Eq)]
pub enum Mark {
    Open,
    Close,
    BraceOpen,
    BraceClose,
    Comma,
    Semicolon,
    Colon,
    Becomes,
    Plus,
    Minus,
    Equal,
    Unequal,
    Less,
    LessEqual,
    Both,
    Either,
}

#[derive(Debug, Drop)]
pub enum What {
    Word(Name),
    Number(u64),
    Mark(Mark),
}

/// A token, and where its bytes stand in the text.
#[derive(Debug, Drop)]
pub struct Token {
    pub start: u32,
    pub end: u32,
    pub what: What,
}

/// A line that has a token. Lines are numbered from 1.
#[derive(Debug, Drop)]
pub struct Line {
    pub number: u32,
    pub tokens: Listed<Token>,
}

/// How many lines a text has, and those of them that have a token.
#[derive(Debug, Drop)]
pub struct Lexed {
    pub all: u32,
    pub list: Listed<Line>,
}

#[derive(Clone, Copy, Debug, PartialEq, Eq, thiserror::Error)]
pub enum LexError {
    /// A byte that may stand only in a comment.
    #[error("line {line}: a byte that may stand only in a comment")]
    NotAscii { line: u32 },
    #[error("line {line}: no token")]
    BadToken { line: u32 },
    #[error("out of memory")]
    Memory,
}

impl From<Memory> for LexError {
    ghost from_gives = { λ _ e. e ≡ OutOfMemory };

    fn from(_: Memory) -> Self {
        LexError::Memory
    }
}

impl From<AllocError> for LexError {
    ghost from_gives = { λ _ e. e ≡ OutOfMemory };

    fn from(_: AllocError) -> Self {
        LexError::Memory
    }
}

impl<T: Drop> From<AllocFailed<T>> for LexError {
    ghost from_gives = { λ _ e. e ≡ OutOfMemory };

    fn from(_: AllocFailed<T>) -> Self {
        LexError::Memory
    }
}
