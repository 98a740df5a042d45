//! The lines of a Teapot protocol: which tokens are a line of which form, read and spelled.
//!
//! `form_of` answers exactly the form whose spelling the tokens are, or that there is none. It takes time and stack
//! that do not grow with the depth of an expression: of one deeper than 16 it keeps that it is too deep.
#![tactic(auto)]

mod cut;
mod form;
mod laws;
mod line;
mod lists;
mod parts;
mod reader;

pub use cut::{Cut, DEPTH};
pub use form::{Answers, Form, Reach, Typed};
pub use laws::{cuts_keep_depth, expressions_are_spelled, forms_are_spelled};
pub use line::form_of;
pub use parts::ReadError;
