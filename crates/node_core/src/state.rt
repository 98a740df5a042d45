use blizzard_guard::Processor;
use block_tags::Blocks;
use cont_store::Conts;
use deferred_queues::Deferred;
use dsm_runs::Mode;
use handler_vm::{Around, Cell, Doors};
use node_parts::{Fronts, Log, Out};
use tw_base::End;

/// All of a node that changes.
#[derive(Drop)]
pub struct State {
    pub processor: Processor,
    pub mode: Mode,
    pub failed: Option<End>,
    pub clock: u64,
    pub instructions: u32,
    pub handled: u32,
    pub sent: u32,
    pub cells: Vec<Cell>,
    pub blocks: Blocks,
    pub conts: Conts,
    pub deferred: Deferred,
    pub around: Around,
    pub doors: Doors,
    pub log: Log,
    pub fronts: Fronts,
    pub out: Out,
    pub ops: u64,
    pub records: u32,
    // there is memory for one event
    pub ready: bool,
}
