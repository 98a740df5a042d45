ghost use Rattle.std.specs.Prelude.{◌≡◌};
ghost use Rattle.report_reader.specs.declared.error.AuditError.TheVariants.{Memory as OutOfMemory};

use tw_base::Memory;

/// Why a report is denied. Where a report breaks several of these rules, the first of them counts, in this order.
#[derive(Clone, Copy, Debug, PartialEq, Eq)]
pub enum AuditRule {
    /// A line that does not have the form of its place, or names something that the machine does not have.
    BadLine,
    /// Events that are not numbered from 0 in order.
    BadNumber,
    /// An instruction that the flat machine does not execute so.
    WrongAct,
    /// Prints that are not those of the flat machine.
    WrongPrint,
    /// Words that are not those of the flat machine.
    WrongWord,
    /// Registers that are not those of the flat machine.
    WrongRegister,
    /// A node that has not ended so, or other counts than its events have.
    WrongNode,
    /// A history that does not agree.
    WrongHistory,
    /// An event that may not happen there.
    NotEnabled,
    /// An event that happens otherwise than its line says.
    OtherEntry,
    /// Fewer events than were asked for.
    TooFew,
}

/// A report is denied at a line, from 1 on; or there is not enough memory.
#[derive(Clone, Copy, Debug, PartialEq, Eq, thiserror::Error)]
pub enum AuditError {
    #[error("line {line} is denied: {rule:?}")]
    Denied { line: u32, rule: AuditRule },
    #[error("out of memory")]
    Memory,
}

impl From<Memory> for AuditError {
    ghost from_gives = { λ _ e. e ≡ OutOfMemory };

    fn from(_: Memory) -> Self {
        AuditError::Memory
    }
}
