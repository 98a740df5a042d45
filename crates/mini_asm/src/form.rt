use crate::Instr;
use tw_base::Name;

/// What a line of a program is.
#[derive(Debug, Drop)]
pub enum Form {
    Label(Name),
    /// An instruction, with the label that it jumps to. The place of a jump is still 0.
    Code(Instr, Option<Name>),
}

/// A line of a program, with its number in the text.
#[derive(Debug, Drop)]
pub struct Written {
    pub line: u32,
    pub form: Form,
}
