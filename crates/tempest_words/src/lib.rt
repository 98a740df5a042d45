//! What the words of the command line ask for: a command, its number, and the options.
//!
//! The words are parted by `clap`, as those of one simple command. `asked` answers exactly what the definition of the words
//! gives, or that they ask for nothing. It reads no input and writes nothing.
#![tactic(auto)]

mod parting;
mod parts;
mod request;
mod words;

pub use request::{Asked, Command};
pub use words::{WordsError, asked};
