//! The model as a program: nodes and wires in memory, that start as `dsm_runs` says and make one event after another.
//!
//! `enabled` is exactly whether an event may happen. `step` makes an enabled event and gives its entry: the state that it
//! leads to is the one that the definitions say (`Step`). `settle` makes the events of a serial schedule until none is
//! enabled, and gives their entries (`Settles`). `outcome_of` says how a node ended. Want of memory is the only error; after it
//! `step` has changed nothing, and the events that `settle` made stand.
#![tactic(auto)]

mod deferred;
mod events;
mod first;
mod global;
mod handle;
mod instruct;
mod local;
mod make;
mod outbox;
mod outcome;
mod queue;
mod schedule;
mod stepping;
mod take;
mod wires;

pub use deferred::Deferred;
pub use dsm_runs::{Mode, Outcome, Setup, Waiting};
pub use events::enabled;
pub use first::{first_copies, start_line, start_state, start_tag, zeros};
pub use global::Global;
pub use local::Local;
pub use outcome::{outcome_by, outcome_of};
pub use schedule::settle;
pub use stepping::step;
