//! The text of the shipped protocol: Stache, after the user-level shared memory of Tempest (Steven K. Reinhardt, James R.
//! Larus, David A. Wood, Tempest and Typhoon: User-Level Shared Memory, 1994).
#![tactic(auto)]

mod text;

pub use text::{STACHE, stache_text};
