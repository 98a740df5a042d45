ghost use Rattle.std.specs.Prelude.{◌≡◌, ◌++◌, IfOk, None, OnOk};
ghost use Rattle.teapot_meaning.specs.Names.{info_number};
ghost use Rattle.compiled_meaning.specs.Compiled.{all_code, expr_code, op_list};
ghost use Rattle.compiled_meaning.specs.Follows.{get_op, put_op, slot_of};

use crate::numbers::small;
use crate::ops::Ops;
use handler_code::OpCode;
use std::alloc::Global;
use teapot_tree::{Checked, Expr};
use tw_base::{Memory, Name, NodeSet, Value};

/// Adds the code of an expression, where these are the names of the handler's variables.
#[tactic(auto, unfolding(compiled_meaning::specs::Compiled::expr_code))]
pub fn add_expr(ops: &mut Ops, p: &Checked, names: &[Name], e: &Expr) -> Result<(), Memory>
    ensures { OnOk result (ops.new ≡ ops.old ++ expr_code p.now names.now e.now) }
{
    match e {
        Expr::Number(n) => ops.push(OpCode::Const(Value::Int(*n))),
        Expr::True => ops.push(OpCode::Const(Value::Bool(true))),
        Expr::False => ops.push(OpCode::Const(Value::Bool(false))),
        Expr::Empty => ops.push(OpCode::Const(Value::Set(NodeSet::empty()))),
        Expr::Src => ops.push(get(p, names, b"src")?),
        Expr::SelfNode => ops.push(OpCode::Me),
        Expr::Home => ops.push(OpCode::Home),
        Expr::Var(name) => ops.push(get(p, names, name.bytes())?),
        Expr::One(a) => {
            add_expr(ops, p, names, a.get())?;
            ops.push(OpCode::One)
        }
        Expr::Not(a) => {
            add_expr(ops, p, names, a.get())?;
            ops.push(OpCode::Not)
        }
        Expr::Count(a) => {
            add_expr(ops, p, names, a.get())?;
            ops.push(OpCode::Count)
        }
        Expr::Two(op, a, b) => {
            add_expr(ops, p, names, a.get())?;
            add_expr(ops, p, names, b.get())?;
            ops.push(OpCode::Two(*op))
        }
    }
}

/// Adds the code of expressions, one behind the other.
pub fn add_exprs(ops: &mut Ops, p: &Checked, names: &[Name], exprs: &[Expr]) -> Result<(), Memory>
    ensures { OnOk result (ops.new ≡ ops.old ++ all_code p.now names.now exprs.now) }
{
    for e in exprs {
        add_expr(ops, p, names, e)?;
    }
    Ok(())
}

/// The code of an expression.
pub fn expr_ops(alloc: Global, p: &Checked, names: &[Name], e: &Expr) -> Result<Ops, Memory>
    ensures { IfOk result (λ ops. ops ≡ expr_code p.now names.now e.now) }
{
    let mut ops = Ops::new(alloc);
    add_expr(&mut ops, p, names, e)?;
    Ok(ops)
}

// An info, where the name is that of no variable of the handler.
fn get_info(info: Option<usize>) -> Result<OpCode, Memory>
    ensures { IfOk result (λ op. op ≡ get_op None info) }
{
    match info {
        Some(k) => Ok(OpCode::GetInfo(small(k)?)),
        None => Ok(OpCode::Const(Value::Int(0))),
    }
}

fn get(p: &Checked, names: &[Name], name: &[u8]) -> Result<OpCode, Memory>
    ensures { IfOk result (λ op. op ≡ get_op (slot_of names.now name.now) (info_number p.now name.now)) }
{
    match slot(names, name) {
        Some(k) => Ok(OpCode::Get(small(k)?)),
        None => get_info(info(p, name)),
    }
}

/// The slot of a variable of the handler.
pub fn slot(names: &[Name], name: &[u8]) -> Option<usize>
    ensures { result ≡ slot_of names.now name.now }
{
    names.iter().position(|n| n.is(name))
}

/// The place of an info among the infos.
pub fn info(p: &Checked, name: &[u8]) -> Option<usize>
    ensures { result ≡ info_number p.now name.now }
{
    p.protocol()
        .infos
        .items()
        .iter()
        .position(|i| i.name.is(name))
}

// Writes an info, where the name is that of no variable of the handler.
fn put_info(ops: &mut Ops, info: Option<usize>) -> Result<(), Memory>
    ensures { OnOk result (ops.new ≡ ops.old ++ op_list (put_op None info)) }
{
    match info {
        Some(k) => ops.push(OpCode::PutInfo(small(k)?)),
        None => Ok(()),
    }
}

/// Adds the code that writes a variable of the handler, else an info.
pub fn add_put(ops: &mut Ops, p: &Checked, names: &[Name], name: &[u8]) -> Result<(), Memory>
    ensures { OnOk result (ops.new ≡ ops.old ++ op_list (put_op (slot_of names.now name.now) (info_number p.now name.now))) }
{
    match slot(names, name) {
        Some(k) => ops.push(OpCode::Put(small(k)?)),
        None => put_info(ops, info(p, name)),
    }
}
