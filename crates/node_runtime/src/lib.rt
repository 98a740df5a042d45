//! Nodes on threads: each behind a lock, with two workers that make its events, and wires between them.
//!
//! What lies behind a lock is known by its type alone. So a seat's type names its node, the setup and the wires, and keeps that
//! the node stands for its log, with what was pushed and taken on its wires. When the threads have ended the seats are opened,
//! the wires closed, and what is left is a state of the model, which is settled on one thread.
#![tactic(auto)]

mod closing;
mod cluster;
mod gate;
mod places;
mod run;

pub use cluster::Cluster;
pub use gate::{Gate, OpenGate};
pub use run::run_threads;
