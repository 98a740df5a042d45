ghost use Rattle.std.specs.Prelude.{◌≡◌, ◌<◌, ◌≤◌, false, length, map, IfOk};
ghost use Rattle.compiled_meaning.specs.Whole.{IsCode};
ghost use Rattle.mini_asm.specs.Run.{first_cpu};
ghost use Rattle.handler_code.specs.Doors.{filled};
ghost use Rattle.teapot_meaning.specs.Does.{zero_of};
ghost use Rattle.node_acts.specs.Starts.{start_cell, start_cells, start_shown};
ghost use Rattle.dsm_runs.specs.Setups.{IsSetup, first_copies, program_at};
ghost use Rattle.block_tags.specs.Copies.{IsWhole};
ghost use Rattle.node_core.specs.States.{IsInside, shown_of};

use crate::state::State;
use blizzard_guard::Processor;
use compiled_handlers::doors;
use cont_store::Conts;
use deferred_queues::Deferred;
use dsm_model::{first_copies, start_state, zeros};
use dsm_runs::{Mode, Setup};
use handler_code::Code;
use handler_vm::{Around, Cell};
use node_parts::{Fronts, Log, Out};
use std::alloc::Global;
use tw_base::{BlockId, Listed, Memory, NodeId, Value};

/// The values, and zeros up to eight places.
fn padded(values: &[Value]) -> [Value; 8]
    requires { length values.now ≤ 8 }
    ensures { result ≡ filled 8 values.now }
{
    let mut places = [Value::Int(0); 8];
    places[..values.len()].copy_from_slice(values);
    places
}

/// A block's cell at the start, where infos start with these values.
fn start_cell(setup: &Setup, me: NodeId, values: &[Value], block: BlockId) -> Cell
    requires infos { values.now ≡ map (λ info. zero_of info.ty) setup.now.protocol.infos }
    requires few { length values.now ≤ 8 }
    ensures { result ≡ start_cell setup.now me block }
{
    Cell {
        state: start_state(setup, setup.shape().home(block) == me),
        args: [Value::Int(0); 4],
        cont: None,
        infos: padded(values),
    }
}

/// The cells of a node at the start, by block.
fn start_cells(alloc: Global, setup: &Setup, me: NodeId) -> Result<Listed<Cell>, Memory>
    ensures { IfOk result (λ cells. cells ≡ start_cells setup.now me) }
{
    let values = zeros(alloc, setup.protocol().protocol().infos.items())?;
    let mut cells = Listed::new(alloc);
    for number in 0..setup.shape().blocks() {
        let block = BlockId::new(number).unwrap();
        cells.push(start_cell(setup, me, values.items(), block))?;
    }
    Ok(cells)
}

/// The processor of a node at the start of its program.
fn start_processor(alloc: Global, setup: &Setup, me: NodeId) -> Result<Processor, Memory>
    requires { me < setup.now.shape.nodes }
    ensures { IfOk result (λ x. x ≡ record { program = program_at setup.now me; cpu = first_cpu }) }
{
    Processor::new(alloc, &setup.programs()[usize::from(me.get())])
}

/// The state of a node at the start.
pub fn start(alloc: Global, setup: &Setup, code: &Code, me: NodeId) -> Result<State, Memory>
    requires code { IsCode setup.now.protocol code.now }
    requires me { me < setup.now.shape.nodes }
    ensures shown { IfOk result (λ x. shown_of setup.now code.now me x ≡ start_shown setup.now code.now me x.conts false) }
    ensures inside { IfOk result (IsInside setup.now code.now me) }
    ensures whole { IfOk result (λ x. IsWhole (first_copies setup.now me)) }
    ensures valid { IfOk result (λ x. IsSetup setup.now) }
{
    let blocks = first_copies(alloc, setup, me)?;
    let _shape = blocks.shape();
    Ok(State {
        processor: start_processor(alloc, setup, me)?,
        mode: Mode::Running,
        failed: None,
        clock: 0,
        instructions: 0,
        handled: 0,
        sent: 0,
        cells: start_cells(alloc, setup, me)?.into_vec(),
        blocks,
        conts: Conts::new(alloc),
        deferred: Deferred::new(alloc, setup.shape().blocks())?,
        around: Around::new(alloc)?,
        doors: doors(alloc, code, setup.protocol())?,
        log: Log::new(alloc),
        fronts: Fronts::new(),
        out: Out::new(alloc),
        ops: 0,
        records: 0,
        ready: false,
    })
}
