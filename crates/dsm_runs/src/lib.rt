//! What a run of nodes and wires is: definitions and laws. The nodes run programs over blocks which a protocol keeps
//! coherent, and messages pass on the wires between them.
//!
//! The definitions say what one event does at one node (`LocalStep`), what an event of all nodes and wires is (`Step`),
//! what a run is (`Runs`), what a node's log says of the node (`Replays`), which events a serial schedule makes
//! (`Settles`), and how a node ended (`outcome_of`). The laws tie them together: logs that replay, merged by stamp and
//! node, are a run; a run has one end and few events; a schedule is one run that ends quiet; in every run each block fits
//! the protocol, and each message is one of the protocol.
#![tactic(auto)]

mod laws;
mod mode;
mod outcome;
mod setup;

pub use laws::{
    due_steps_are_flat, enabled_events_step, events_have_one_step, log_has_one_course,
    logs_are_sound, logs_go_on, logs_have_one_merge, merged_logs_are_a_run,
    nodes_start_with_the_flat_words, nodes_stay_sound, quiet_nodes_end_a_run, run_has_one_end,
    runs_are_short, runs_go_on, schedules_are_one_run, what_every_run_keeps, what_steps_show,
    wires_are_sound,
};
pub use mode::{Mode, Waiting};
pub use outcome::Outcome;
pub use setup::Setup;
