//! The shipped protocol: Stache, after the user-level shared memory of Tempest. `stache` reads its text and checks it.
#![tactic(auto)]

mod laws;
mod shipped;

pub use laws::shipped_text_is_stache;
pub use shipped::stache;
pub use shipped_text::stache_text;
