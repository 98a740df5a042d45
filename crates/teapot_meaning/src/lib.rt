//! What the handlers of a protocol do (after Teapot): the state of a block, and the meaning of statements and of a
//! message at a block.
//!
//! The meaning is `Does`: the handler that the state has for the message, else its `Default`, run statement after
//! statement until it ends. `one_end` and `one_meaning` say that there is exactly one end, `fitting_blocks_stay_fit`
//! that a block of an accepted protocol has a state of that protocol again, `same_without_lines` that no line number
//! matters. The functions give the values of expressions, the names of errors and copies of a block.
#![tactic(auto)]

mod copy;
mod errors;
mod laws;
mod names;
mod sets;
mod state;
mod values;

pub use errors::{ErrorNames, error_names, error_number};
pub use laws::{fitting_blocks_stay_fit, one_end, one_meaning, same_without_lines};
pub use names::{info_place, message_number, message_place, payload, state_number};
pub use sets::{least_of, nodes_in};
pub use state::{Bound, Cont, Ended, Here, Kept, Next, Out, Running, StateVal, free};
pub use values::{count, eval, node, not, one, set_of, two, zero};
