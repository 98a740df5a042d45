ghost use Rattle.std.specs.Prelude.{◌≡◌, ◌<◌, map, length, IfOk};
ghost use Rattle.std.specs.List.{range_with_len};
ghost use Rattle.std.specs.Option.{option_copied};
ghost use Rattle.teapot_meaning.specs.Does.{zero_of};
ghost use Rattle.dsm_model.specs.Kept.{IsSound};
ghost use Rattle.dsm_runs.specs.Locals.{first};
ghost use Rattle.dsm_runs.specs.Setups.{first_copies, first_here, start_line, start_state, start_tag};
ghost use Rattle.dsm_model.specs.Views.{local_of};

use crate::{Deferred, Local, Mode, Setup};
use block_tags::Blocks;
use mini_asm::Cpu;
use std::alloc::Global;
use teapot_meaning::{Here, StateVal};
use teapot_tree::{Param, Start, ValType};
use tw_base::{BlockId, Listed, Memory, NodeId, NodeSet, Tag, Value};

/// The value that a variable of a type starts with.
fn zero_of(ty: ValType) -> Value
    ensures { result ≡ zero_of ty }
{
    match ty {
        ValType::Int => Value::Int(0),
        ValType::Bool => Value::Bool(false),
        ValType::Node => Value::Node(NodeId::new(0).unwrap()),
        ValType::Set => Value::Set(NodeSet::empty()),
    }
}

/// The values that variables of these types start with.
pub fn zeros(alloc: Global, infos: &[Param]) -> Result<Listed<Value>, Memory>
    ensures { IfOk result (λ values. values ≡ map (λ info. zero_of info.ty) infos.now) }
{
    let mut values = Listed::new(alloc);
    for info in infos {
        values.push(zero_of(info.ty))?;
    }
    Ok(values)
}

/// How a block starts at its home, or elsewhere.
pub fn start_line(setup: &Setup, home: bool) -> Option<&Start>
    ensures { option_copied result ≡ start_line setup.now home }
{
    let starts = setup.protocol().protocol().starts.items();
    if home {
        starts.iter().find(|start| start.home)
    } else {
        starts.iter().find(|start| !start.home)
    }
}

/// The number of the state that a block starts in, at its home or elsewhere.
pub fn start_state(setup: &Setup, home: bool) -> u8
    ensures { result ≡ start_state setup.now (start_line setup.now home) }
{
    match start_line(setup, home) {
        Some(start) => setup.protocol().state_number(&start.state).unwrap_or(0),
        None => 0,
    }
}

/// The tag that a block starts with, at its home or elsewhere.
pub fn start_tag(setup: &Setup, home: bool) -> Tag
    ensures { result ≡ start_tag (start_line setup.now home) }
{
    match start_line(setup, home) {
        Some(start) => start.tag,
        None => Tag::Invalid,
    }
}

/// The tags and words of a node at the start.
pub fn first_copies(alloc: Global, setup: &Setup, me: NodeId) -> Result<Blocks, Memory>
    ensures { IfOk result (λ copies. copies ≡ first_copies setup.now me) }
{
    let home = start_tag(setup, true);
    let cache = start_tag(setup, false);
    Blocks::new(alloc, setup.shape(), me, home, cache, setup.init())
}

/// A block of a node at the start.
fn first_here(
    alloc: Global,
    setup: &Setup,
    me: NodeId,
    copies: &Blocks,
    block: BlockId,
) -> Result<Here, Memory>
    requires copies { copies.now ≡ first_copies setup.now me }
    requires block { block < setup.now.shape.blocks }
    ensures { IfOk result (λ here. here ≡ first_here setup.now me block) }
{
    let home = setup.shape().home(block);
    Ok(Here {
        me,
        home,
        block,
        infos: zeros(alloc, setup.protocol().protocol().infos.items())?,
        state: StateVal {
            state: start_state(setup, home == me),
            args: Listed::new(alloc),
            cont: None,
        },
        tag: copies.tag(block),
        words: copies.words(block),
    })
}

/// The blocks of a node at the start.
fn first_blocks(alloc: Global, setup: &Setup, me: NodeId) -> Result<Listed<Here>, Memory>
    ensures { IfOk result (λ blocks. blocks ≡ map (first_here setup.now me) (range_with_len 0 setup.now.shape.blocks)) }
{
    let copies = first_copies(alloc, setup, me)?;
    let mut blocks = Listed::new(alloc);
    for number in 0..setup.shape().blocks() {
        let block = BlockId::new(number).unwrap();
        blocks.push(first_here(alloc, setup, me, &copies, block)?)?;
    }
    Ok(blocks)
}

/// A node at the start.
pub fn first(alloc: Global, setup: &Setup, me: NodeId) -> Result<Local, Memory>
    ensures same { IfOk result (λ l. local_of setup.now me l ≡ first setup.now me) }
    ensures sound { IfOk result (IsSound setup.now) }
{
    let _shape = setup.shape();
    Ok(Local {
        mode: Mode::Running,
        failed: None,
        clock: 0,
        cpu: Cpu::new(),
        blocks: first_blocks(alloc, setup, me)?,
        deferred: Deferred::new(alloc),
        instructions: 0,
        handled: 0,
        sent: 0,
    })
}
