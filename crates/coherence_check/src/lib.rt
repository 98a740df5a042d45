//! Whether a state of the machine is coherent under Stache, Stache_D or Stache_L, and else the first part of the least block
//! that fails. What names no protocol stands once, over a `Directory`.
#![tactic(auto)]

mod decide;
mod each;
mod node;
mod owed;
mod parts;
mod reading;
mod spot;
mod waits;
mod wire;

pub use coherence_reads::Part;
pub use decide::{Broken, coherent, coherent_d, coherent_l, holds, holds_d, holds_l};
