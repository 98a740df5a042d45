//! The code of handlers, and the machine that runs it.
//!
//! A protocol's handlers are one list of ops. The machine runs it one op after another, on the slots of a handler and on a
//! stack of values, and a handler that suspends is saved as a record of its slots. The machine is total: an operand, a
//! slot or an info that is missing is the number 0. `stops_once` says that it comes to one end at most, and `enters_once`
//! that a message does, which enters the code at the door that its kind has in the state.
#![tactic(auto)]

mod code;
mod laws;

pub use code::{Code, Door, Kind2, OpCode, Rest};
pub use laws::{enters_once, stops_once};
