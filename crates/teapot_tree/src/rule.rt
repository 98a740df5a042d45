/// The rules that an accepted protocol keeps, in the order in which they are reported for one line.
#[derive(Clone, Copy, Debug, PartialEq, Eq)]
pub enum Rule {
    /// What is used is declared and visible.
    Undeclared,
    /// What is declared once stands once.
    Twice,
    /// Operators, statements and arguments take values of their types.
    WrongType,
    /// As many arguments stand as are declared.
    ArgCount,
    /// Each state has a handler for all else.
    NoDefault,
    /// A continuation is not dropped.
    ContDropped,
    /// Nothing follows a resumption.
    ResumeNotLast,
    /// The continuation that is resumed is that of the handler's state.
    ResumeForeign,
    /// The message at hand is neither deferred nor installed once the handler was suspended.
    AfterSuspend,
    /// What is installed came with the message.
    NoData,
    /// A handler sends a bounded number of messages.
    TooManySends,
    /// There is one start of each kind.
    NotTwoStarts,
}
