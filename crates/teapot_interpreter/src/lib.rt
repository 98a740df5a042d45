//! An interpreter of the handlers of a protocol.
//!
//! `run` gives the end that the meaning of a message has at a block, and fails only for want of memory. The statements that
//! are left stand on a stack, the next one on top, so a handler takes time in its statements.
#![tactic(auto)]

mod interpreter;
mod step;

pub use interpreter::{is_served, run, run_in};
