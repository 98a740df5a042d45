ghost use Rattle.std.specs.Prelude.{◌≡◌, ◌^◌, ◌<◌, IfOk, length, map};
ghost use Rattle.std.specs.List.{list_all};
ghost use Rattle.compiled_meaning.specs.Whole.{IsCode};
ghost use Rattle.suspend_split.specs.Drafts.{HasLive, reads_low, with_live};

use crate::handlers::add_states;
use crate::words::Words;
use handler_code::{Code, OpCode, Rest};
use live_slots::{live_table, slots_at};
use std::alloc::Global;
use teapot_tree::Checked;
use tw_base::{Listed, Memory};

/// The code of a protocol's handlers, which has fewer than 2^22 ops.
///
/// It answers `Memory` as well where the code would have 2^22 ops, a handler 256 slots or more than 32 that are read, or
/// the protocol 256 states or infos or 65,536 handlers. The limits of the language keep a protocol far below all of these,
/// and a text of one megabyte below that many ops.
pub fn split(alloc: Global, p: &Checked) -> Result<Code, Memory>
    ensures code { IfOk result (λ code. IsCode p.now code) }
    ensures short { IfOk result (λ code. length code.ops < 2 ^ 22) }
{
    short(compiled(alloc, p)?)
}

/// The same code, where it has fewer than 2^22 ops.
fn short(code: Code) -> Result<Code, Memory>
    ensures same { IfOk result (λ same. same ≡ code) }
    ensures short { IfOk result (λ same. length same.ops < 2 ^ 22) }
{
    if code.ops.len() < 4_194_304 {
        Ok(code)
    } else {
        Err(Memory)
    }
}

/// The code of a protocol's handlers, however long.
fn compiled(alloc: Global, p: &Checked) -> Result<Code, Memory>
    ensures { IfOk result (λ code. IsCode p.now code) }
{
    let words = Words::new(alloc, p)?;
    let mut code = Code {
        ops: Listed::new(alloc),
        doors: Listed::new(alloc),
        rests: Listed::new(alloc),
    };
    add_states(alloc, &mut code, &words, p.protocol().states.items())?;
    with_live(alloc, code)
}

/// The code with the live slots of its rests. There is none for code that reads a slot past the 32nd, which no protocol has.
fn with_live(alloc: Global, code: Code) -> Result<Code, Memory>
    ensures { IfOk result (HasLive code) }
{
    let Code { ops, doors, rests } = code;
    if !all_read_low(ops.items()) {
        return Err(Memory);
    }
    let table = live_table(alloc, ops.items())?;
    let rests = live_rests(alloc, rests.items(), table.items())?;
    Ok(Code { ops, doors, rests })
}

/// Whether each op reads a slot below 32, if it reads one.
fn all_read_low(ops: &[OpCode]) -> bool
    ensures { result ≡ list_all reads_low ops.now }
{
    ops.iter().all(|op| reads_low(op))
}

fn reads_low(op: &OpCode) -> bool
    ensures { result ≡ reads_low op.now }
{
    match op {
        OpCode::Get(slot) => *slot < 32,
        OpCode::EachNext(_, set, _) => *set < 32,
        _ => true,
    }
}

fn live_rests(alloc: Global, rests: &[Rest], table: &[u32]) -> Result<Listed<Rest>, Memory>
    ensures { IfOk result (λ all. all ≡ map (with_live table.now) rests.now) }
{
    let mut all = Listed::new(alloc);
    for rest in rests {
        all.push(live_rest(*rest, table))?;
    }
    Ok(all)
}

fn live_rest(rest: Rest, table: &[u32]) -> Rest
    ensures { result ≡ with_live table.now rest }
{
    Rest {
        at: rest.at,
        door: rest.door,
        live: slots_at(table, rest.at as usize),
    }
}
