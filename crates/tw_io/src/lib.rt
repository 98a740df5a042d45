//! Where input comes from and where output goes to.
//!
//! A source and a sink count their own failures, which nothing else can raise: so a call that answers a fault has a
//! cause. `read_all` gives all bytes that are left, `write_all_counted` writes all bytes, or they answer what went
//! wrong, and their contracts say what was read or written by then.
#![tactic(auto)]

mod ends;
mod memory;
mod read;
mod stdio;
mod write;

pub use ends::{Failed, Sink, Source};
pub use memory::{MemSink, MemSource};
pub use read::{ReadError, read_all};
pub use stdio::{StdSink, StdSource};
pub use write::write_all_counted;
