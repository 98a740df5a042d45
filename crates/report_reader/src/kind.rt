/// The kinds of lines of a report, but for the first line.
#[derive(Clone, Copy, Debug, PartialEq, Eq)]
pub enum LineKind {
    Print,
    Word,
    Register,
    Node,
    Counts,
    /// An instruction that completed.
    Completed,
    /// An access that was refused, and its handler.
    Fault,
    Redelivered,
    Delivered,
    History,
    End,
}
