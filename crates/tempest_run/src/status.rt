ghost use Rattle.std.specs.Prelude.{◌≡◌};
ghost use Rattle.tempest_run.specs.Statuses.{code_of};

/// How a call of the program ended.
#[derive(Clone, Copy, Debug, PartialEq, Eq)]
pub enum Status {
    /// The answer was written, and every node has halted.
    Done,
    Memory,
    /// The words are no command.
    Usage,
    /// The source failed.
    ReadFault,
    /// The sink failed.
    WriteFault,
    /// The input is longer than it may be.
    TooLong,
    /// The input is not valid, or not served.
    Refused,
    /// The report behind the input is denied.
    Denied,
    /// A report was written, and a node has not halted.
    Unfinished,
}

impl Status {
    /// The exit status of the process.
    pub fn code(self) -> u8
        ensures { result ≡ code_of self }
    {
        match self {
            Status::Done => 0,
            Status::Memory => 1,
            Status::Usage => 2,
            Status::ReadFault => 3,
            Status::WriteFault => 4,
            Status::TooLong => 5,
            Status::Refused => 6,
            Status::Denied => 7,
            Status::Unfinished => 8,
        }
    }
}
