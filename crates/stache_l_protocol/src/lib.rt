//! Stache_L, a protocol that is shipped beside Stache: at most two caches hold a block read-only. `stache_l` reads its text and
//! checks it.
#![tactic(auto)]

mod laws;
mod shipped;

pub use laws::text_is_stache_l;
pub use shipped::stache_l;
pub use stache_l_text::stache_l_text;
