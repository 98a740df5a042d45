/// An instruction: registers, numbers and places in the order of its line. A place is the number of an instruction
/// of the program, from 0.
#[derive(Clone, Copy, Debug, PartialEq, Eq)]
pub enum Instr {
    Li(u8, u64),
    Mov(u8, u8),
    Add(u8, u8, u8),
    Sub(u8, u8, u8),
    And(u8, u8, u8),
    Or(u8, u8, u8),
    Xor(u8, u8, u8),
    Ld(u8, u8, u64),
    St(u8, u8, u64),
    Beq(u8, u8, u32),
    Bne(u8, u8, u32),
    Blt(u8, u8, u32),
    Jmp(u32),
    Print(u8),
    Halt,
    /// Fetch and add: the register that gets the word, the register that is added to it, and the address.
    Faa(u8, u8, u8, u64),
}

/// What an instruction's line begins with.
#[derive(Clone, Copy, Debug, PartialEq, Eq)]
pub enum Keyword {
    Li,
    Mov,
    Add,
    Sub,
    And,
    Or,
    Xor,
    Ld,
    St,
    Beq,
    Bne,
    Blt,
    Jmp,
    Print,
    Halt,
    Faa,
}
