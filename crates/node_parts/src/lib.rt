//! The parts of a node that hold messages and entries: its log, what it keeps of the wires to it, and what waits to be
//! handed out. Only making room takes memory.
#![tactic(auto)]

mod fronts;
mod log;
mod masks;
mod out;
mod places;

pub use fronts::Fronts;
pub use log::Log;
pub use masks::tests_word;
pub use out::Out;
pub use places::place;
