//! Tokens: the words, numbers and marks of a text, line by line, each with its place in the text, or the first fault.
//!
//! `lines` answers exactly what the lexical definition gives, and its tokens are slices of the text in order.
#![tactic(auto)]

mod bytes;
mod laws;
mod lexeme;
mod split;
mod token;

pub use laws::{faults_are_first, lines_are_the_texts, no_line_is_left_out, tokens_are_slices};
pub use lexeme::number_of;
pub use split::lines;
pub use token::{LexError, Lexed, Line, Mark, Token, What};
