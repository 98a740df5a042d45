//! Fine-grain access control in the program itself (after Blizzard-S): a check of its block's tag stands before each
//! access.
//!
//! `guard` puts the checks in and moves the jumps. `Processor` executes a guarded program and is seen as the processor
//! of the plain one: what `look` and `finish` say of it is what mini_asm says of a plain processor.
#![tactic(auto)]

mod access;
mod guarding;
mod laws;
mod processor;

pub use access::{Looked, check_access};
pub use guarding::{GuardOp, Guarded, guard, plain_place};
pub use laws::guarded_programs_are_plain;
pub use processor::{Look, Processor};
