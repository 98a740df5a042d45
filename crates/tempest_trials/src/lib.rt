//! A report stands trial by itself: it is audited beside one flat memory, or so many of its events are made anew. What is
//! written of it, or the line that denies it.
#![tactic(auto)]

mod laws;
mod trial;

pub use laws::trials_are_one;
pub use trial::{Trial, audited, replayed};
