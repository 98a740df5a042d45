//! The machine that runs compiled handlers.
//!
//! `run` enters the code of a protocol with a message, and leaves what the machine of ops (`handler_code`) comes to: the
//! same sends in order, the same tag, words, state and records. It takes no memory: its stack, its slots and the room for
//! its sends are of fixed size, which `HasRoom` and `Around` answer for. All of them stay where they are from message to
//! message, and of slots and stack only what a handler uses is written.
//!
//! It does not test whether what the code names is there: `HasRoom` says so of each operand, slot, info, message, state and
//! rest, and `IsInOrder` says where the doors of a state stand. It tests only what a stored record names.
#![tactic(auto)]

mod around;
mod cell;
mod doors;
mod enter;
mod go;
mod laws;
mod machine;
mod records;
mod running;
mod search;
mod sends;
mod sets;
mod step;
mod unsent;
mod values;
mod work;

pub use around::Around;
pub use cell::{Cell, Ran};
pub use doors::Doors;
pub use laws::chains_stay_apart;
pub use machine::run;
