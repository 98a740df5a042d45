use crate::{Deferred, Mode};
use mini_asm::Cpu;
use teapot_meaning::Here;
use tw_base::{End, Listed};

/// A node: what its processor does, how a handler failed there, its clock, its processor, its copy of each block, the
/// messages that it deferred, and how many instructions it tried, messages it handled and messages it sent.
#[derive(Debug, Drop)]
pub struct Local {
    pub mode: Mode,
    pub failed: Option<End>,
    pub clock: u64,
    pub cpu: Cpu,
    pub blocks: Listed<Here>,
    pub deferred: Deferred,
    pub instructions: u32,
    pub handled: u32,
    pub sent: u32,
}
