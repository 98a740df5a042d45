//! The events of a report, made again on the model.
//!
//! `replay` makes the first events of a report from the start, and gives the state that they lead to. It is denied at the first
//! line whose event is not enabled there, or whose event is otherwise than the line says (`Replays`). `replay_text` writes the
//! state.
#![tactic(auto)]

mod blocks;
mod replaying;
mod stands;
mod text;
mod wires;

pub use replaying::replay;
pub use text::replay_text;
