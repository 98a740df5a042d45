ghost use Rattle.input_numbers.specs.Small.{NumbersOfTextsAreSmall, ReadProgramsAreSmall};

/// The numbers of a text have 64 bits: a number that has not is no token.
pub fn numbers_of_texts_are_small()
    ensures { NumbersOfTextsAreSmall }
{}

/// A program that is read off such lines has at most 4,096 instructions, numbers of 64 bits, and jumps to places of its own.
pub fn read_programs_are_small()
    ensures { ReadProgramsAreSmall }
{}
