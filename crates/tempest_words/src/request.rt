/// What the program is to do.
#[derive(Clone, Copy, Debug, PartialEq, Eq)]
pub enum Command {
    /// Run the input on threads.
    Run,
    /// Run the input in the serial schedule of this stride.
    Serial(u32),
    /// Check the protocol of the input.
    Check,
    /// Write the code of the handlers of the input's protocol.
    Code,
    /// Write the protocol of the input in its canonical spelling.
    Show,
    /// Write the table of the shipped protocol. It reads no input.
    Table,
    /// Run the sample of this number on threads. It reads no input.
    Sample(u32),
    /// Judge the report behind the input by one flat memory.
    Audit,
    /// Make so many events of the report behind the input anew.
    Replay(u32),
}

/// What the words ask for: a command, whether the report has its journal and its counts, whether the run is to be made on the
/// model, which counts nothing, and how many events a turn of a thread makes at most.
#[derive(Clone, Copy, Debug, PartialEq, Eq)]
pub struct Asked {
    pub command: Command,
    pub journal: bool,
    pub counts: bool,
    pub meaning: bool,
    pub batch: u32,
}
