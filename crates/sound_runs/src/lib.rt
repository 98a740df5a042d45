//! What holds of every run of the nodes: of its stamps, under any protocol, and that under a shipped protocol it is sound to
//! its end.
#![tactic(auto)]

mod laws;

pub use laws::{shipped_are_sound_to_their_end, stamps_are_sound};
