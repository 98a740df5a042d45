//! Walks over the ops of a handler.
//!
//! Where jumps and loops lead (`leads_well`), how deep the stack is at each place (`first_on_stack`), and of which types the
//! values on it are (`first_mistyped`). The rules of code are made of these.
#![tactic(auto)]

mod handlers;
mod jumps;
mod kinds;
mod parts;
mod stacks;

pub use handlers::{handler_of, same_kind};
pub use jumps::{Loop, is_done, is_in_range, leads_well, loops_of};
pub use kinds::{first_mistyped, slot_types};
pub use parts::{Part, end_of, op_at, ops_of, part_at};
pub use stacks::first_on_stack;
