//! A block as a node keeps it for compiled handlers, beside the block of the interpreter.

ghost use Rattle.std.specs.Prelude.{[], ℕ, ◌≡◌, ◌^◌, ◌<◌, ◌≤◌, IfOk, OnOk, None, length, map, take, true};
ghost use Rattle.teapot_tree.specs.declared.protocol.Protocol.{Protocol};
ghost use Rattle.teapot_meaning.specs.Does.{Does};
ghost use Rattle.teapot_meaning.specs.Fits.{Fits, IsMessageOf, type_of, types_of};
ghost use Rattle.teapot_meaning.specs.declared.state.Ended.{Ended};
ghost use Rattle.cont_store.specs.Store.{Store};
ghost use Rattle.handler_code.specs.declared.code.Code.{Code};
ghost use Rattle.handler_vm.specs.declared.cell.Cell.{Cell};
ghost use Rattle.handler_vm.specs.Chains.{IsChain};
ghost use Rattle.handler_vm.specs.Tables.{IsTableOf};
ghost use Rattle.compiled_meaning.specs.Whole.{IsCode};
ghost use Rattle.compiled_handlers.specs.Standing.{BlockStands};
ghost use Rattle.compiled_handlers_tests.specs.Alike.{Alike, EndsAlike, IsPlain};
ghost use Rattle.compiled_handlers_tests.specs.Beside.{IsBeside, StaysBeside};

use crate::chain::same_chain;
use crate::messages::{have_types, is_message};
use block_tags::Blocks;
use compiled_handlers::{doors, handle};
use cont_store::Conts;
use handler_code::Code;
use handler_vm::{Around, Cell, Doors, Ran, chains_stay_apart};
use std::alloc::Global;
use std::test::Fail;
use teapot_interpreter::run;
use teapot_meaning::{Ended, Here, StateVal, fitting_blocks_stay_fit, zero};
use teapot_tree::{Checked, Param, Protocol, State, ValType};
use tw_base::{BlockId, Listed, Memory, Message, NodeId, Value};

#[derive(Drop)]
pub struct Both {
    pub cell: Cell,
    pub blocks: Blocks,
    pub conts: Conts,
    pub around: Around,
    pub here: Here,
}

/// Another block of the same node, whose records are in the same store.
#[derive(Drop)]
pub struct Side {
    pub cell: Cell,
    pub here: Here,
}

// What the infos begin with.
fn first_infos(params: &[Param]) -> [Value; 8] {
    let mut infos = [Value::Int(0); 8];
    for (k, param) in params.iter().enumerate() {
        if k < 8 {
            infos[k] = zero(param.ty);
        }
    }
    infos
}

fn first_cell(p: &Protocol, state: u8) -> Cell
    ensures state { result.state ≡ state }
    ensures cont { result.cont ≡ None }
{
    Cell {
        state,
        args: [Value::Int(0); 4],
        cont: None,
        infos: first_infos(p.infos.items()),
    }
}

/// Whether a block may begin in a state: it has no arguments and no continuation.
pub fn is_plain(state: &State) -> bool
    ensures params { result ≡ true → state.now.params ≡ [] }
    ensures cont { result ≡ true → state.now.cont ≡ None }
{
    state.params.is_empty() && state.cont.is_none()
}

// The types of declared variables.
fn types_of(alloc: Global, params: &[Param]) -> Result<Listed<ValType>, Memory>
    ensures { IfOk result (λ types. types ≡ types_of params.now) }
{
    let mut types = Listed::new(alloc);
    for param in params {
        types.push(param.ty)?;
    }
    Ok(types)
}

// The first infos of a cell, if they have their types.
fn infos_of(alloc: Global, p: &Protocol, cell: &Cell) -> Result<Listed<Value>, Fail>
    ensures value { IfOk result (λ infos. infos ≡ take (length p.now.infos) cell.now.infos) }
    ensures types { IfOk result (λ infos. map type_of infos ≡ types_of p.now.infos) }
{
    let types = types_of(alloc, p.infos.items())?;
    if types.len() > 8 {
        return Err(Fail::new("more infos than there may be"));
    }
    let infos = &cell.infos[..types.len()];
    if !have_types(infos, types.items()) {
        return Err(Fail::new("infos of other types"));
    }
    Ok(Listed::from_slice(alloc, infos)?)
}

// The block of node 1, whose home is node 2, that a cell stands for.
fn first_here(
    alloc: Global,
    p: &Protocol,
    cell: &Cell,
    blocks: &Blocks,
    block: BlockId,
) -> Result<Here, Fail>
    requires within { block < blocks.now.shape.blocks }
    requires plain { IsPlain p.now cell.now.state }
    ensures fits { IfOk result (Fits p.now) }
    ensures stands { IfOk result (λ here. cell.now.cont ≡ None → (code : Code) (conts : Store) →
        BlockStands p.now code (record { cell = cell.now; blocks = blocks.now; conts = conts }) here) }
    ensures block { IfOk result (λ here. here.block ≡ block) }
{
    let infos = infos_of(alloc, p, cell)?;
    Ok(Here {
        me: NodeId::new(1).unwrap(),
        home: NodeId::new(2).unwrap(),
        block,
        infos,
        state: StateVal {
            state: cell.state,
            args: Listed::new(alloc),
            cont: None,
        },
        tag: blocks.tag(block),
        words: blocks.words(block),
    })
}

// Whether a block may begin in the state of this number.
fn begins_in(p: &Protocol, state: u8) -> bool
    ensures { result ≡ true → IsPlain p.now state }
{
    match p.states.get(usize::from(state)) {
        Some(named) => is_plain(named),
        None => false,
    }
}

/// A block of node 1 in this state, whose home is node 2.
pub fn first(
    alloc: Global,
    p: &Checked,
    state: u8,
    blocks: Blocks,
    block: BlockId,
) -> Result<Both, Fail>
    ensures { (code : Code) →
        IfOk result (λ both. Alike p.now code (record { cell = both.cell; blocks = both.blocks; conts = both.conts })
        both.here) }
{
    let protocol = p.protocol();
    if !begins_in(protocol, state) {
        return Err(Fail::new("no state to begin in"));
    }
    if block.get() >= blocks.shape().blocks() {
        return Err(Fail::new("no block of the node"));
    }
    let cell = first_cell(protocol, state);
    let here = first_here(alloc, protocol, &cell, &blocks, block)?;
    Ok(Both {
        cell,
        blocks,
        conts: Conts::new(alloc),
        around: Around::new(alloc)?,
        here,
    })
}

/// Another block of the node, in this state.
pub fn another(
    alloc: Global,
    p: &Checked,
    state: u8,
    both: &Both,
    block: BlockId,
) -> Result<Side, Fail>
    ensures { (code : Code) →
        IfOk result (λ side. IsBeside p.now code (record {
          cell = both.now.cell;
          blocks = both.now.blocks;
          conts = both.now.conts;
        }) both.now.here.block side.cell side.here) }
{
    let protocol = p.protocol();
    if !begins_in(protocol, state) {
        return Err(Fail::new("no state to begin in"));
    }
    if block.get() >= both.blocks.shape().blocks() {
        return Err(Fail::new("no block of the node"));
    }
    if block == both.here.block {
        return Err(Fail::new("the same block"));
    }
    let cell = first_cell(protocol, state);
    let here = first_here(alloc, protocol, &cell, &both.blocks, block)?;
    Ok(Side { cell, here })
}

// Room for what a message may send and save.
fn ready(both: &mut Both) -> Result<(), Memory>
    ensures room { OnOk result (1 ≤ both.new.conts.spare) }
    ensures same { both.new ≡ record both.old { conts = both.new.conts; around = both.new.around } }
    ensures alike { (p : Protocol) (code : Code) → Alike p code
        (record { cell = both.old.cell; blocks = both.old.blocks; conts = both.old.conts }) both.old.here →
        Alike p code (record { cell = both.new.cell; blocks = both.new.blocks; conts = both.new.conts }) both.new.here }
    ensures beside { (p : Protocol) (code : Code) (block : ℕ) (other : Cell) (there : Here) →
        IsBeside p code (record { cell = both.old.cell; blocks = both.old.blocks; conts = both.old.conts }) block other there →
        StaysBeside p code (record { cell = both.old.cell; blocks = both.old.blocks; conts = both.old.conts }) (record { cell = both.new.cell; blocks = both.new.blocks; conts = both.new.conts }) block other there }
{
    both.conts.reserve()?;
    both.around.ready()
}

// What the code does, where there is room.
fn run_code(code: &Code, doors: &Doors, p: &Checked, both: &mut Both, m: &Message) -> Ran
    requires code { IsCode p.now code.now }
    requires doors { IsTableOf p.now code.now doors.now }
    requires short { length code.now.ops < 2 ^ 22 }
    requires alike { Alike p.now code.now (record { cell = both.old.cell; blocks = both.old.blocks; conts = both.old.conts })
        both.old.here }
    requires block { m.now.block ≡ both.old.here.block }
    requires message { IsMessageOf p.now both.old.blocks.shape.words m.now }
    requires spare { 1 ≤ both.old.conts.spare }
    ensures same { both.new.here ≡ both.old.here }
    ensures alike { (e : Ended) → Does p.now both.old.here m.now e →
        EndsAlike p.now code.now (record { cell = both.new.cell; blocks = both.new.blocks; conts = both.new.conts })
        both.new.here.block e }
    ensures beside { (other : Cell) (there : Here) →
        IsBeside p.now code.now (record { cell = both.old.cell; blocks = both.old.blocks; conts = both.old.conts }) m.now.block
        other there →
        StaysBeside p.now code.now (record { cell = both.old.cell; blocks = both.old.blocks; conts = both.old.conts }) (record { cell = both.new.cell; blocks = both.new.blocks; conts = both.new.conts }) m.now.block other there }
{
    fitting_blocks_stay_fit();
    chains_stay_apart();
    let _protocol = p.protocol();
    let _shape = both.blocks.shape();
    let me = both.here.me;
    let home = both.here.home;
    handle(
        code,
        doors,
        p,
        &mut both.cell,
        &mut both.blocks,
        &mut both.conts,
        me,
        home,
        m,
        &mut both.around,
    )
}

/// Handles a message of the protocol on both sides, and says how it ended on each.
pub fn handled(
    alloc: Global,
    code: &Code,
    p: &Checked,
    both: &mut Both,
    m: &Message,
) -> Result<(Ran, Ended), Fail>
    requires code { IsCode p.now code.now }
    requires short { length code.now.ops < 2 ^ 22 }
    requires alike { Alike p.now code.now (record { cell = both.old.cell; blocks = both.old.blocks; conts = both.old.conts })
        both.old.here }
    ensures ends { IfOk result (λ done. EndsAlike p.now code.now (record
        { cell = both.new.cell; blocks = both.new.blocks; conts = both.new.conts }) both.new.here.block done.1) }
    ensures block { OnOk result (m.now.block ≡ both.old.here.block) }
    ensures same { OnOk result (both.new.here ≡ both.old.here) }
    ensures beside { (other : Cell) (there : Here) →
        IsBeside p.now code.now (record { cell = both.old.cell; blocks = both.old.blocks; conts = both.old.conts }) m.now.block
        other there →
        OnOk result (StaysBeside p.now code.now (record { cell = both.old.cell; blocks = both.old.blocks; conts = both.old.conts }) (record { cell = both.new.cell; blocks = both.new.blocks; conts = both.new.conts }) m.now.block other there) }
{
    let words = both.blocks.shape().words();
    if m.block != both.here.block || !is_message(p.protocol(), words, m) {
        return Err(Fail::new("no message of the protocol for the block"));
    }
    ready(both)?;
    let end = run(alloc, p, &both.here, m)?;
    let doors = doors(alloc, code, p)?;
    let ran = run_code(code, &doors, p, both, m);
    Ok((ran, end))
}

/// How many records there are.
pub fn records(both: &Both) -> u8
    requires { IsChain both.now.blocks.shape.words both.now.conts both.now.cell.cont }
{
    match both.cell.cont {
        Some(key) => both.conts.depth_of(key),
        None => 0,
    }
}

/// Goes on from what a message left, if it is the same block and its records are those of the interpreter's continuations.
pub fn go_on(code: &Code, both: &mut Both, end: Ended) -> Result<(), Fail>
    requires { IsChain both.old.blocks.shape.words both.old.conts both.old.cell.cont }
    ensures alike { (p : Protocol) →
        EndsAlike p code.now (record { cell = both.old.cell; blocks = both.old.blocks; conts = both.old.conts })
        both.old.here.block end →
        OnOk result (Alike p code.now (record { cell = both.new.cell; blocks = both.new.blocks; conts = both.new.conts })
        both.new.here) }
    ensures block { OnOk result (both.new.here.block ≡ both.old.here.block) }
    ensures conts { both.new.conts ≡ both.old.conts }
    ensures beside { (p : Protocol) (block : ℕ) (other : Cell) (there : Here) →
        IsBeside p code.now (record { cell = both.old.cell; blocks = both.old.blocks; conts = both.old.conts }) block other
        there →
        IsBeside p code.now (record { cell = both.new.cell; blocks = both.new.blocks; conts = both.new.conts }) block other there }
{
    let Ended {
        here,
        sends: _,
        kept: _,
        freed: _,
        woke: _,
        end: _,
    } = end;
    if here.me != both.here.me || here.home != both.here.home || here.block != both.here.block {
        return Err(Fail::new("another block"));
    }
    if !same_chain(code, &both.conts, both.cell.cont, &here.state, 9) {
        return Err(Fail::new("records that differ"));
    }
    both.here = here;
    Ok(())
}
