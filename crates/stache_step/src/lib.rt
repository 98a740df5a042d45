//! Which row of the shipped protocol's table applies to a message at a block: `table_step` names it, and its contract says
//! that the handler of that message does what the row says, or meets its Error where there is none.
#![tactic(auto)]

mod lookup;
mod step;

pub use step::table_step;
