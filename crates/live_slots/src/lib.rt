//! The slots that code reads before it writes them.
//!
//! `live_table` finds them for every place of the code at once, a bit for each slot below 32; `live` gives those of one place.
//! The compiler takes from the table what a rest keeps, and the verifier asks it whether a rest keeps enough.
#![tactic(auto)]

mod place;
mod table;

pub use place::live;
pub use table::{live_table, slots_at};
