ghost use Rattle.std.specs.Prelude.{◌≡◌, [], ◌∷◌, ◌++◌, ◌+◌, IfOk, length, unwrap_or};
ghost use Rattle.teapot_meaning.specs.Names.{declared, info_number};
ghost use Rattle.teapot_tree.specs.Scopes.{message_number, state_number};
ghost use Rattle.handler_code.specs.declared.code.OpCode.{OpCode};
ghost use Rattle.compiled_meaning.specs.Compiled.{all_code, code_of, do_code, each_code, expr_code, op_list, stmt_code};
ghost use Rattle.compiled_meaning.specs.Follows.{put_op, slot_of};

use crate::exprs::{add_exprs, add_put, expr_ops, slot};
use crate::numbers::{place, small, sum};
use crate::ops::Ops;
use crate::start::Start;
use crate::words::Words;
use handler_code::OpCode;
use std::alloc::Global;
use teapot_tree::{Checked, Do, Expr, Stmt};
use tw_base::{Listed, Memory, Name};

/// The code of a list of statements.
#[tactic(auto, using(crate::proofs::More::code_more))]
#[cycle(stmts)]
pub fn list_ops(
    stmts: &[Stmt],
    alloc: Global,
    w: &Words<'_>,
    names: &[Name],
    start: Start,
) -> Result<Ops, Memory>
    ensures { IfOk result (λ ops. ops ≡ code_of w.now.protocol.now names.now stmts.now start.at start.rest start.slot) }
{
    let mut ops = Ops::new(alloc);
    'stmts: for s in stmts {
        let next = start.after(&ops)?;
        ops = ops.then(stmt_ops(s, alloc, w, names, next)?)?;
    }
    Ok(ops)
}

#[tactic(auto, unfolding(compiled_meaning::specs::Compiled::do_code, compiled_meaning::specs::Compiled::stmt_code))]
#[cycle(stmts)]
fn stmt_ops(
    s: &Stmt,
    alloc: Global,
    w: &Words<'_>,
    names: &[Name],
    start: Start,
) -> Result<Ops, Memory>
    ensures { IfOk result (λ ops. ops ≡ stmt_code w.now.protocol.now names.now s.now start.at start.rest start.slot) }
{
    do_ops(&s.what, alloc, w, names, start)
}

#[tactic(auto, unfolding(compiled_meaning::specs::Compiled::do_code, compiled_meaning::specs::Compiled::stmt_code))]
#[cycle(stmts)]
fn do_ops(d: &Do, alloc: Global, w: &Words<'_>, names: &[Name], start: Start) -> Result<Ops, Memory>
    ensures { IfOk result (λ ops. ops ≡ do_code w.now.protocol.now names.now d.now start.at start.rest start.slot) }
{
    let p = w.protocol;
    match d {
        Do::Assign(name, e) => assign_ops(alloc, p, names, name, e),
        Do::If(e, first, second) => {
            let test = expr_ops(alloc, p, names, e)?;
            let inner = start.skip(test.len())?.skip(1)?;
            let first = list_ops(first.items(), alloc, w, names, inner)?;
            let after = inner.after(&first)?;
            match second {
                Some(second) => {
                    let other = after.skip(1)?;
                    let second = list_ops(second.items(), alloc, w, names, other)?;
                    with_else(test, first, second, other.at)
                }
                None => with_then(test, first, after.at),
            }
        }
        Do::Send(to, name, args) => send_ops(alloc, p, names, to, args, send(p, name)),
        Do::SendAll(to, name, args) => send_ops(alloc, p, names, to, args, send_all(p, name)),
        Do::SetTag(tag) => Ops::of(alloc, OpCode::Tag(*tag)),
        Do::SetState(name, args) => args_ops(alloc, p, names, args, OpCode::Goto(state(p, name))),
        Do::Suspend(_, name, args, _) => {
            let op = OpCode::Suspend(state(p, name), place(start.rest)?);
            args_ops(alloc, p, names, args, op)
        }
        Do::ForEach(name, e, body) => each_ops(body, alloc, w, names, start, name, e),
        Do::Each(_, _, _) => Ok(Ops::new(alloc)),
        Do::Resume(_) => Ops::of(alloc, OpCode::Resume),
        Do::Install => Ops::of(alloc, OpCode::Install),
        Do::Enqueue => Ops::of(alloc, OpCode::Enqueue),
        Do::WakeUp => Ops::of(alloc, OpCode::Wake),
        Do::Error(name) => Ops::of(alloc, OpCode::Fail(w.error(name))),
    }
}

/// A loop over a set.
#[cycle(stmts)]
fn each_ops(
    body: &Listed<Stmt>,
    alloc: Global,
    w: &Words<'_>,
    names: &[Name],
    start: Start,
    name: &Name,
    e: &Expr,
) -> Result<Ops, Memory>
    ensures { IfOk result (λ ops. ops ≡ each_code (expr_code w.now.protocol.now names.now e.now)
        (unwrap_or (slot_of names.now name.now) 0) (code_of w.now.protocol.now names.now body.now) start.at start.rest
        start.slot) }
{
    let set = expr_ops(alloc, w.protocol, names, e)?;
    let turn = start.skip(set.len())?.skip(1)?;
    let body = list_ops(body.items(), alloc, w, names, turn.skip(1)?.in_loop()?)?;
    let variable = slot(names, name.bytes()).unwrap_or(0);
    with_each(set, body, variable, start.slot, turn.at)
}

fn assign_ops(
    alloc: Global,
    p: &Checked,
    names: &[Name],
    name: &Name,
    e: &Expr,
) -> Result<Ops, Memory>
    ensures { IfOk result (λ ops. ops ≡ expr_code p.now names.now e.now
        ++ op_list (put_op (slot_of names.now name.now) (info_number p.now name.now))) }
{
    let mut ops = expr_ops(alloc, p, names, e)?;
    add_put(&mut ops, p, names, name.bytes())?;
    Ok(ops)
}

/// A receiver, the arguments, and an op that takes them.
fn send_ops(
    alloc: Global,
    p: &Checked,
    names: &[Name],
    to: &Expr,
    args: &Listed<Expr>,
    op: OpCode,
) -> Result<Ops, Memory>
    ensures { IfOk result (λ ops. ops ≡ expr_code p.now names.now to.now ++ (all_code p.now names.now args.now ++ op ∷ [])) }
{
    let mut ops = expr_ops(alloc, p, names, to)?;
    add_exprs(&mut ops, p, names, args.items())?;
    ops.with(op)
}

/// The arguments, and an op that takes them.
fn args_ops(
    alloc: Global,
    p: &Checked,
    names: &[Name],
    args: &Listed<Expr>,
    op: OpCode,
) -> Result<Ops, Memory>
    ensures { IfOk result (λ ops. ops ≡ all_code p.now names.now args.now ++ op ∷ []) }
{
    let mut ops = Ops::new(alloc);
    add_exprs(&mut ops, p, names, args.items())?;
    ops.with(op)
}

/// A loop: its set is put into a slot, and each turn begins at `start`.
fn with_each(set: Ops, body: Ops, variable: usize, slot: usize, start: usize) -> Result<Ops, Memory>
    ensures { IfOk result (λ ops. ops ≡ set ++ OpCode.Put slot ∷ OpCode.EachNext variable slot (start + 1 + length body + 1) ∷
        (body ++ OpCode.JumpBack start ∷ [])) }
{
    let to = sum(sum(sum(start, 1)?, body.len())?, 1)?;
    let (variable, slot) = (small(variable)?, small(slot)?);
    let ops = set.with(OpCode::Put(slot))?;
    let ops = ops.with(OpCode::EachNext(variable, slot, place(to)?))?;
    ops.then(body.with(OpCode::JumpBack(place(start)?))?)
}

/// A branch: where the test does not hold, the code goes on at `after`.
fn with_then(test: Ops, first: Ops, after: usize) -> Result<Ops, Memory>
    ensures { IfOk result (λ ops. ops ≡ test ++ OpCode.JumpIfNot after ∷ first) }
{
    test.join(OpCode::JumpIfNot(place(after)?), first)
}

/// Two branches, of which the second begins at `to`.
fn with_else(test: Ops, first: Ops, second: Ops, to: usize) -> Result<Ops, Memory>
    ensures { IfOk result (λ ops. ops ≡ test ++ OpCode.JumpIfNot to ∷ (first ++ OpCode.Jump (to + length second) ∷ second)) }
{
    let end = place(sum(to, second.len())?)?;
    let branches = first.join(OpCode::Jump(end), second)?;
    test.join(OpCode::JumpIfNot(place(to)?), branches)
}

fn send(p: &Checked, name: &Name) -> OpCode
    ensures { result ≡ OpCode.Send (declared (message_number p.now name.now)) }
{
    OpCode::Send(p.message_number(name).unwrap_or(0))
}

fn send_all(p: &Checked, name: &Name) -> OpCode
    ensures { result ≡ OpCode.SendAll (declared (message_number p.now name.now)) }
{
    OpCode::SendAll(p.message_number(name).unwrap_or(0))
}

fn state(p: &Checked, name: &Name) -> u8
    ensures { result ≡ declared (state_number p.now name.now) }
{
    p.state_number(name).unwrap_or(0)
}
