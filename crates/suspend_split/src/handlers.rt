ghost use Rattle.std.specs.Prelude.{◌≡◌, [], ◌∷◌, ◌++◌, IfOk, OnOk, length, map};
ghost use Rattle.teapot_meaning.specs.Fits.{names_in};
ghost use Rattle.handler_code.specs.Doors.{kind_of};
ghost use Rattle.handler_code.specs.declared.code.OpCode.{OpCode};
ghost use Rattle.compiled_meaning.specs.Compiled.{code_of};
ghost use Rattle.compiled_meaning.specs.Whole.{entries_from};
ghost use Rattle.suspend_split.specs.Drafts.{entries_in, entry_in, rest_after, rests_after, with_entries, with_entry};

use crate::numbers::{door_number, place, small, sum};
use crate::ops::Ops;
use crate::start::Start;
use crate::stmts::list_ops;
use crate::words::Words;
use handler_code::{Code, Door, Kind2, OpCode, Rest};
use std::alloc::Global;
use teapot_tree::{Checked, Handler, Param, State, Trigger};
use tw_base::{Listed, Memory, Name};

/// The names of a handler's variables.
fn names_in(alloc: Global, state: &State, handler: &Handler) -> Result<Listed<Name>, Memory>
    ensures { IfOk result (λ names. names ≡ names_in state.now handler.now) }
{
    let mut names = Listed::new(alloc);
    names.push(Name::new(alloc, b"src")?)?;
    add_params(alloc, &mut names, state.params.items())?;
    add_names(alloc, &mut names, handler.args.items())?;
    add_params(alloc, &mut names, handler.locals.items())?;
    Ok(names)
}

fn add_params(alloc: Global, names: &mut Listed<Name>, params: &[Param]) -> Result<(), Memory>
    ensures { OnOk result (names.new ≡ names.old ++ map (λ a. a.name) params.now) }
{
    for param in params {
        names.push(param.name.copy(alloc)?)?;
    }
    Ok(())
}

fn add_names(alloc: Global, names: &mut Listed<Name>, more: &[Name]) -> Result<(), Memory>
    ensures { OnOk result (names.new ≡ names.old ++ more.now) }
{
    for name in more {
        names.push(name.copy(alloc)?)?;
    }
    Ok(())
}

fn kind_of(p: &Checked, on: &Trigger) -> Kind2
    ensures { result ≡ kind_of p.now on.now }
{
    match on {
        Trigger::RdFault => Kind2::RdFault,
        Trigger::WrFault => Kind2::WrFault,
        Trigger::Named(name) => Kind2::Named(p.message_number(name).unwrap_or(0)),
        Trigger::Default => Kind2::Default,
    }
}

/// The code of a handler that begins at a place, with the number of its first rest.
fn handler_ops(
    alloc: Global,
    w: &Words<'_>,
    names: &[Name],
    handler: &Handler,
    at: usize,
    rest: usize,
) -> Result<Ops, Memory>
    ensures { IfOk result (λ ops. ops ≡ code_of w.now.protocol.now names.now handler.now.body at rest (length names.now)
        ++ OpCode.Done ∷ []) }
{
    let slot = names.len();
    let start = Start { at, rest, slot };
    list_ops(handler.body.items(), alloc, w, names, start)?.with(OpCode::Done)
}

/// A rest for each `Suspend` of the ops, whose first stands at a place.
fn add_rests(rests: &mut Listed<Rest>, door: u16, at: usize, ops: &[OpCode]) -> Result<(), Memory>
    ensures { OnOk result (rests.new ≡ rests.old ++ rests_after door at ops.now) }
{
    for (i, op) in ops.iter().enumerate() {
        add_rest(rests, door, sum(at, i)?, op)?;
    }
    Ok(())
}

fn add_rest(rests: &mut Listed<Rest>, door: u16, at: usize, op: &OpCode) -> Result<(), Memory>
    ensures { OnOk result (rests.new ≡ rests.old ++ rest_after door at op.now) }
{
    if let OpCode::Suspend(_, _) = op {
        let at = place(sum(at, 1)?)?;
        rests.push(Rest { at, door, live: 0 })?;
    }
    Ok(())
}

/// Adds a handler of the state of this number.
#[tactic(auto, unfolding(crate::specs::Drafts::with_entry))]
fn add_handler(
    alloc: Global,
    code: &mut Code,
    w: &Words<'_>,
    number: usize,
    state: &State,
    handler: &Handler,
) -> Result<(), Memory>
    ensures { OnOk result (code.new ≡ with_entry w.now.protocol.now code.old (entry_in number state.now handler.now)) }
{
    let names = names_in(alloc, state, handler)?;
    let at = code.ops.len();
    let ops = handler_ops(alloc, w, names.items(), handler, at, code.rests.len())?;
    let door = Door {
        state: small(number)?,
        on: kind_of(w.protocol, &handler.on),
        at: place(at)?,
        slots: small(sum(names.len(), ops.loops())?)?,
    };
    add_rests(
        &mut code.rests,
        door_number(code.doors.len())?,
        at,
        ops.items(),
    )?;
    code.doors.push(door)?;
    code.ops.append(ops.into_listed())
}

/// Adds the handlers of the state of this number.
fn add_handlers(
    alloc: Global,
    code: &mut Code,
    w: &Words<'_>,
    number: usize,
    state: &State,
) -> Result<(), Memory>
    ensures { OnOk result (code.new ≡ with_entries w.now.protocol.now code.old (entries_in number state.now)) }
{
    for handler in state.handlers.items() {
        add_handler(alloc, code, w, number, state, handler)?;
    }
    Ok(())
}

/// Adds the handlers of these states, each by its number.
pub fn add_states(
    alloc: Global,
    code: &mut Code,
    w: &Words<'_>,
    states: &[State],
) -> Result<(), Memory>
    ensures { OnOk result (code.new ≡ with_entries w.now.protocol.now code.old (entries_from 0 states.now)) }
{
    for (number, state) in states.iter().enumerate() {
        add_handlers(alloc, code, w, number, state)?;
    }
    Ok(())
}
