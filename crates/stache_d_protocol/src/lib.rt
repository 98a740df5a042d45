//! Stache_D, a protocol that is shipped beside Stache: a recall for a reader leaves the owner a read-only copy. `stache_d`
//! reads its text and checks it.
#![tactic(auto)]

mod laws;
mod shipped;

pub use laws::text_is_stache_d;
pub use shipped::stache_d;
pub use stache_d_text::stache_d_text;
