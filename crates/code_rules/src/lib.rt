//! The rules that the code of handlers keeps, and `verify`, which says whether it keeps them and otherwise where it
//! first breaks one. `verified_code_is_safe` says what that is good for: the machine never looks for what is not there.
#![tactic(auto)]

mod fault;
mod laws;
mod ops;
mod rests;
mod serving;
mod sets;
mod structure;
mod suspensions;
mod verifier;

pub use fault::{CodeFault, Rule};
pub use laws::{verified_code_has_depths, verified_code_is_safe};
pub use verifier::verify;
