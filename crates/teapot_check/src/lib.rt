//! The checker: it answers a tree of the grammar unchanged where it breaks no rule of the language, and else the least line
//! at which it breaks one, with the first rule that is broken there.
#![tactic(auto)]

mod again;
mod checker;
mod fits;
mod handlers;
mod noted;
mod passing;
mod sight;
mod types;
mod variables;
mod walk;

pub use checker::{CheckError, check};
