//! A small assembly: its text, its programs, and machines that run them one instruction at a time.
//!
//! `parse_program` answers the program that the lines spell, or the first fault in them. `Cpu` is one processor;
//! `Flat` is several processors over one list of words, with no blocks, tags or messages.
#![tactic(auto)]

mod cpu;
mod flat;
mod form;
mod instr;
mod labels;
mod laws;
mod parse;
mod processor;
mod program;
mod spelling;

pub use cpu::{Cpu, Next};
pub use flat::Flat;
pub use instr::Instr;
pub use laws::{
    program_is_what_its_lines_spell, programs_are_of_their_version, words_at_the_start,
};
pub use parse::{ProgramError, parse_program};
pub use processor::{Core, FlatMode};
pub use program::Program;
