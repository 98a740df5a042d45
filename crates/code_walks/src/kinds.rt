ghost use Rattle.std.specs.Prelude.{◌≡◌, [], ◌∷◌, ◌++◌, IfOk, MatchOption, OnOk, false, map, slice_get, true};
ghost use Rattle.teapot_tree.specs.Rules.{params_of};
ghost use Rattle.teapot_tree.specs.Scopes.{args_of, same_type};
ghost use Rattle.teapot_meaning.specs.Fits.{type_of, types_in, types_of};
ghost use Rattle.code_walks.specs.Kinds.{filled_types, gives, has_loop_slots, is_mistyped, is_typed, needs, needs_two};
ghost use Rattle.code_walks.specs.Kinds.{pushed_on, slot_types, top_type, type_at, type_of_two, types_after, with_sets};
ghost use Rattle.code_walks.specs.Kinds.{without};
ghost use Rattle.code_walks.specs.Least.{IsLeast};
ghost use Rattle.code_walks.specs.Parts.{Within};

use crate::handlers::{handler_of, taken_message};
use crate::parts::{Part, op_at};
use handler_code::{Code, Door, OpCode};
use std::alloc::Global;
use teapot_tree::{Checked, Handler, Op, Param, Protocol, State, ValType};
use tw_base::{Listed, Memory, Stack, Value};

// ---- the types of slots

fn add_params(types: &mut Listed<ValType>, params: &[Param]) -> Result<(), Memory>
    ensures { OnOk result (types.new ≡ types.old ++ types_of params.now) }
{
    for a in params {
        types.push(a.ty)?;
    }
    Ok(())
}

fn add_types(types: &mut Listed<ValType>, more: &[ValType]) -> Result<(), Memory>
    ensures { OnOk result (types.new ≡ types.old ++ more.now) }
{
    for ty in more {
        types.push(*ty)?;
    }
    Ok(())
}

fn add_sets(types: &mut Listed<ValType>, count: usize) -> Result<(), Memory>
    ensures { OnOk result (types.new ≡ with_sets count types.old) }
{
    for _set in 0..count {
        types.push(ValType::Set)?;
    }
    Ok(())
}

/// The types of a handler's variables.
fn variable_types(
    alloc: Global,
    p: &Protocol,
    state: &State,
    handler: &Handler,
) -> Result<Listed<ValType>, Memory>
    ensures { IfOk result (λ ts. ts ≡ types_in p.now state.now handler.now) }
{
    let mut types = Listed::new(alloc);
    types.push(ValType::Node)?;
    add_params(&mut types, state.params.items())?;
    if let Some(m) = taken_message(p, &handler.on) {
        add_types(&mut types, m.args.items())?;
    }
    add_params(&mut types, handler.locals.items())?;
    Ok(types)
}

/// The types of a handler's slots.
pub fn slot_types(alloc: Global, p: &Checked, door: Door) -> Result<Listed<ValType>, Memory>
    ensures { IfOk result (λ ts. ts ≡ slot_types p.now door) }
{
    let state = p.protocol().states.get(door.state as usize);
    let mut types = match (state, handler_of(p, door)) {
        (Some(s), Some(h)) => variable_types(alloc, p.protocol(), s, h)?,
        _ => Listed::new(alloc),
    };
    let count = (door.slots as usize).saturating_sub(types.len());
    add_sets(&mut types, count)?;
    Ok(types)
}

fn type_at(types: &[ValType], k: u8) -> ValType
    ensures { result ≡ type_at types.now k }
{
    match types.get(k as usize) {
        Some(ty) => *ty,
        None => ValType::Int,
    }
}

fn info_type(p: &Protocol, k: u8) -> ValType
    ensures { result ≡ type_at (types_of p.now.infos) k }
{
    match p.infos.get(k as usize) {
        Some(info) => info.ty,
        None => ValType::Int,
    }
}

fn type_of(x: &Value) -> ValType
    ensures { result ≡ type_of x.now }
{
    match x {
        Value::Int(_) => ValType::Int,
        Value::Bool(_) => ValType::Bool,
        Value::Node(_) => ValType::Node,
        Value::Set(_) => ValType::Set,
    }
}

fn same_type(a: ValType, b: ValType) -> bool
    ensures { result ≡ same_type a b }
{
    match a {
        ValType::Int => matches!(b, ValType::Int),
        ValType::Bool => matches!(b, ValType::Bool),
        ValType::Node => matches!(b, ValType::Node),
        ValType::Set => matches!(b, ValType::Set),
    }
}

// ---- what an op takes and gives

fn top_type(stack: &Stack<ValType>) -> ValType
    ensures { result ≡ top_type stack.now }
{
    match stack.top() {
        Some(ty) => *ty,
        None => ValType::Int,
    }
}

fn one(alloc: Global, ty: ValType) -> Result<Stack<ValType>, Memory>
    ensures { IfOk result (λ s. s ≡ ty ∷ []) }
{
    let mut stack = Stack::new(alloc);
    stack.push(ty)?;
    Ok(stack)
}

fn two(alloc: Global, top: ValType, below: ValType) -> Result<Stack<ValType>, Memory>
    ensures { IfOk result (λ s. s ≡ top ∷ below ∷ []) }
{
    let mut stack = Stack::new(alloc);
    stack.push(below)?;
    stack.push(top)?;
    Ok(stack)
}

fn push_types(stack: Stack<ValType>, types: &[ValType]) -> Result<Stack<ValType>, Memory>
    ensures { IfOk result (λ s. s ≡ pushed_on stack types.now) }
{
    let mut stack = stack;
    for ty in types {
        stack.push(*ty)?;
    }
    Ok(stack)
}

fn push_params(stack: Stack<ValType>, params: &[Param]) -> Result<Stack<ValType>, Memory>
    ensures { IfOk result (λ s. s ≡ pushed_on stack (map (λ (a : Param). a.ty) params.now)) }
{
    let mut stack = stack;
    for a in params {
        stack.push(a.ty)?;
    }
    Ok(stack)
}

fn message_types(
    alloc: Global,
    p: &Protocol,
    to: ValType,
    message: u8,
) -> Result<Stack<ValType>, Memory>
    ensures { IfOk result (λ s. s ≡ pushed_on (to ∷ []) (args_of (slice_get p.now.messages message))) }
{
    let stack = one(alloc, to)?;
    match p.messages.get(message as usize) {
        Some(m) => push_types(stack, m.args.items()),
        None => Ok(stack),
    }
}

fn state_types(alloc: Global, p: &Protocol, state: u8) -> Result<Stack<ValType>, Memory>
    ensures { IfOk result (λ s. s ≡ pushed_on [] (params_of (slice_get p.now.states state))) }
{
    let stack = Stack::new(alloc);
    match p.states.get(state as usize) {
        Some(s) => push_params(stack, s.params.items()),
        None => Ok(stack),
    }
}

fn needs_two(alloc: Global, op: Op, top: ValType) -> Result<Stack<ValType>, Memory>
    ensures { IfOk result (λ s. s ≡ needs_two op top) }
{
    match op {
        Op::Add => two(alloc, ValType::Int, ValType::Int),
        Op::Sub => two(alloc, ValType::Int, ValType::Int),
        Op::Lt => two(alloc, ValType::Int, ValType::Int),
        Op::Le => two(alloc, ValType::Int, ValType::Int),
        Op::Eq => two(alloc, top, top),
        Op::Ne => two(alloc, top, top),
        Op::And => two(alloc, ValType::Bool, ValType::Bool),
        Op::Or => two(alloc, ValType::Bool, ValType::Bool),
        Op::Has => two(alloc, ValType::Node, ValType::Set),
        Op::With => two(alloc, ValType::Node, ValType::Set),
        Op::Without => two(alloc, ValType::Node, ValType::Set),
    }
}

/// The types that an op takes, where this one is on the top.
fn needs(
    alloc: Global,
    p: &Protocol,
    slots: &[ValType],
    op: &OpCode,
    top: ValType,
) -> Result<Stack<ValType>, Memory>
    ensures { IfOk result (λ s. s ≡ needs p.now slots.now op.now top) }
{
    match *op {
        OpCode::One => one(alloc, ValType::Node),
        OpCode::Not => one(alloc, ValType::Bool),
        OpCode::Count => one(alloc, ValType::Set),
        OpCode::Two(o) => needs_two(alloc, o, top),
        OpCode::Put(k) => one(alloc, type_at(slots, k)),
        OpCode::PutInfo(k) => one(alloc, info_type(p, k)),
        OpCode::JumpIfNot(_) => one(alloc, ValType::Bool),
        OpCode::Send(m) => message_types(alloc, p, ValType::Node, m),
        OpCode::SendAll(m) => message_types(alloc, p, ValType::Set, m),
        OpCode::Goto(s) => state_types(alloc, p, s),
        OpCode::Suspend(s, _) => state_types(alloc, p, s),
        _ => Ok(Stack::new(alloc)),
    }
}

fn type_of_two(op: Op) -> ValType
    ensures { result ≡ type_of_two op }
{
    match op {
        Op::Add => ValType::Int,
        Op::Sub => ValType::Int,
        Op::Eq => ValType::Bool,
        Op::Ne => ValType::Bool,
        Op::Lt => ValType::Bool,
        Op::Le => ValType::Bool,
        Op::And => ValType::Bool,
        Op::Or => ValType::Bool,
        Op::Has => ValType::Bool,
        Op::With => ValType::Set,
        Op::Without => ValType::Set,
    }
}

/// The type of the value that an op leaves, if it leaves one.
fn gives(p: &Protocol, slots: &[ValType], op: &OpCode) -> Option<ValType>
    ensures { result ≡ gives p.now slots.now op.now }
{
    match op {
        OpCode::Const(x) => Some(type_of(x)),
        OpCode::Get(k) => Some(type_at(slots, *k)),
        OpCode::GetInfo(k) => Some(info_type(p, *k)),
        OpCode::Me => Some(ValType::Node),
        OpCode::Home => Some(ValType::Node),
        OpCode::One => Some(ValType::Set),
        OpCode::Not => Some(ValType::Bool),
        OpCode::Count => Some(ValType::Int),
        OpCode::Two(o) => Some(type_of_two(*o)),
        _ => None,
    }
}

fn has_loop_slots(slots: &[ValType], op: &OpCode) -> bool
    ensures { result ≡ has_loop_slots slots.now op.now }
{
    match *op {
        OpCode::EachNext(k, h, _) => {
            same_type(ValType::Node, type_at(slots, k))
                && same_type(ValType::Set, type_at(slots, h))
        }
        _ => true,
    }
}

// ---- the walk over a handler

/// What is left where these are taken, if they are on the top.
fn without(stack: Stack<ValType>, needed: Stack<ValType>) -> Option<Stack<ValType>>
    ensures { result ≡ without stack needed }
{
    let mut stack = stack;
    let mut needed = needed;
    while let Some(ty) = needed.pop() {
        match stack.pop() {
            None => return None,
            Some(found) => {
                if !same_type(found, ty) {
                    return None;
                }
            }
        }
    }
    Some(stack)
}

/// The types after an op, None where the stack or the slots have others than it needs.
fn after(
    alloc: Global,
    p: &Protocol,
    slots: &[ValType],
    op: &OpCode,
    stack: Stack<ValType>,
) -> Result<Option<Stack<ValType>>, Memory>
    ensures { IfOk result (λ s. MatchOption s (is_typed p.now slots.now op.now stack ≡ false)
        (λ next. (is_typed p.now slots.now op.now stack ≡ true) × (next ≡ types_after p.now slots.now op.now stack))) }
{
    let top = top_type(&stack);
    let needed = needs(alloc, p, slots, op, top)?;
    let Some(mut rest) = without(stack, needed) else {
        return Ok(None);
    };
    if !has_loop_slots(slots, op) {
        return Ok(None);
    }
    match gives(p, slots, op) {
        None => Ok(Some(Stack::new(alloc))),
        Some(ty) => {
            rest.push(ty)?;
            Ok(Some(rest))
        }
    }
}

/// The least place of an op of the handler that does not find the types that it needs.
pub fn first_mistyped(
    alloc: Global,
    p: &Protocol,
    slots: &[ValType],
    code: &Code,
    part: Part,
) -> Result<Option<u32>, Memory>
    ensures { IfOk result (λ o. IsLeast (Within part (λ at. is_mistyped p.now code.now slots.now part.door.at at ≡ true)) o) }
{
    let mut stack = Stack::new(alloc);
    for at in part.door.at..part.end {
        let op = &op_at(code, at);
        match after(alloc, p, slots, op, stack)? {
            None => return Ok(Some(at)),
            Some(next) => stack = next,
        }
    }
    Ok(None)
}
