//! What a node on compiled handlers stands for: a course of the model, and what the machine of ops does beside it.
//!
//! `Shown` is what a contract sees of a node, `StandsFor` ties it to a course, and `Makes` says what one event does. The
//! laws say that a handler's run, with what a node does around it, makes an event.
#![tactic(auto)]

mod laws;

pub use laws::{handler_events_are_made, nodes_are_ready_for_handlers};
