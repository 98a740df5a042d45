ghost use Rattle.std.specs.Prelude.{◌≡◌};
ghost use Rattle.std.specs.Option.{option_copied};
ghost use Rattle.teapot_meaning.specs.Does.{zero_of};
ghost use Rattle.teapot_meaning.specs.Names.{info_number};
ghost use Rattle.teapot_meaning.specs.Steps.{node_of, set_of};
ghost use Rattle.teapot_meaning.specs.Values.{bound_in, count_of, info_at, not_of, one_of, same_value, two_of, value_of};
ghost use Rattle.teapot_meaning.specs.Values.{variable};

use crate::names::info_place;
use crate::state::{Bound, Here, Running};
use teapot_tree::{Expr, Op, Protocol, ValType};
use tw_base::{NodeId, NodeSet, Value};

/// The value of an expression.
#[tactic(auto, unfolding(crate::specs::Values::value_of))]
pub fn eval(p: &Protocol, r: &Running, e: &Expr) -> Value
    ensures { result ≡ value_of p.now r.now e.now }
{
    match e {
        Expr::Number(n) => Value::Int(*n),
        Expr::True => Value::Bool(true),
        Expr::False => Value::Bool(false),
        Expr::Empty => Value::Set(NodeSet::empty()),
        Expr::Src => read(p, r, b"src"),
        Expr::SelfNode => Value::Node(r.here.me),
        Expr::Home => Value::Node(r.here.home),
        Expr::Var(name) => read(p, r, name.bytes()),
        Expr::One(a) => one(eval(p, r, a.get())),
        Expr::Not(a) => not(eval(p, r, a.get())),
        Expr::Count(a) => count(eval(p, r, a.get())),
        Expr::Two(op, a, b) => two(*op, eval(p, r, a.get()), eval(p, r, b.get())),
    }
}

#[tactic(auto, unfolding(crate::specs::Values::variable))]
fn read(p: &Protocol, r: &Running, name: &[u8]) -> Value
    ensures { result ≡ variable p.now r.now name.now }
{
    match bound(r.vars.items(), name) {
        Some(bound) => bound.value,
        None => info(p, &r.here, name),
    }
}

fn bound<'a>(vars: &'a [Bound], name: &[u8]) -> Option<&'a Bound>
    ensures { option_copied result ≡ bound_in vars.now name.now }
{
    vars.iter().find(|b| b.name.is(name))
}

fn info(p: &Protocol, here: &Here, name: &[u8]) -> Value
    ensures { result ≡ info_at here.now.infos (info_number p.now name.now) }
{
    match info_place(p, name) {
        Some(at) => here.infos.get(at).copied().unwrap_or(Value::Int(0)),
        None => Value::Int(0),
    }
}

/// The opposite of a truth value.
pub fn not(a: Value) -> Value
    ensures { result ≡ not_of a }
{
    match a {
        Value::Bool(b) => Value::Bool(!b),
        _ => Value::Int(0),
    }
}

/// The set of one node.
pub fn one(a: Value) -> Value
    ensures { result ≡ one_of a }
{
    match a {
        Value::Node(node) => Value::Set(NodeSet::one(node)),
        _ => Value::Int(0),
    }
}

/// How many members a set has.
pub fn count(a: Value) -> Value
    ensures { result ≡ count_of a }
{
    match a {
        Value::Set(set) => Value::Int(set.count()),
        _ => Value::Int(0),
    }
}

/// The value of an operator at two values.
pub fn two(op: Op, a: Value, b: Value) -> Value
    ensures { result ≡ two_of op a b }
{
    match op {
        Op::Add => add(a, b),
        Op::Sub => sub(a, b),
        Op::Eq => Value::Bool(equal(a, b)),
        Op::Ne => Value::Bool(!equal(a, b)),
        Op::Lt => less(a, b),
        Op::Le => at_most(a, b),
        Op::And => and(a, b),
        Op::Or => or(a, b),
        Op::Has => has(a, b),
        Op::With => with(a, b),
        Op::Without => without(a, b),
    }
}

fn add(a: Value, b: Value) -> Value
    ensures { result ≡ two_of Op.Add a b }
{
    match (a, b) {
        (Value::Int(a), Value::Int(b)) => Value::Int(a.saturating_add(b)),
        _ => Value::Int(0),
    }
}

fn sub(a: Value, b: Value) -> Value
    ensures { result ≡ two_of Op.Sub a b }
{
    match (a, b) {
        (Value::Int(a), Value::Int(b)) => Value::Int(a.saturating_sub(b)),
        _ => Value::Int(0),
    }
}

fn less(a: Value, b: Value) -> Value
    ensures { result ≡ two_of Op.Lt a b }
{
    match (a, b) {
        (Value::Int(a), Value::Int(b)) => Value::Bool(a < b),
        _ => Value::Int(0),
    }
}

fn at_most(a: Value, b: Value) -> Value
    ensures { result ≡ two_of Op.Le a b }
{
    match (a, b) {
        (Value::Int(a), Value::Int(b)) => Value::Bool(a <= b),
        _ => Value::Int(0),
    }
}

fn and(a: Value, b: Value) -> Value
    ensures { result ≡ two_of Op.And a b }
{
    match (a, b) {
        (Value::Bool(a), Value::Bool(b)) => Value::Bool(a && b),
        _ => Value::Int(0),
    }
}

fn or(a: Value, b: Value) -> Value
    ensures { result ≡ two_of Op.Or a b }
{
    match (a, b) {
        (Value::Bool(a), Value::Bool(b)) => Value::Bool(a || b),
        _ => Value::Int(0),
    }
}

fn has(a: Value, b: Value) -> Value
    ensures { result ≡ two_of Op.Has a b }
{
    match a {
        Value::Set(set) => match b {
            Value::Node(node) => Value::Bool(set.has(node)),
            _ => Value::Int(0),
        },
        _ => Value::Int(0),
    }
}

fn with(a: Value, b: Value) -> Value
    ensures { result ≡ two_of Op.With a b }
{
    match a {
        Value::Set(set) => match b {
            Value::Node(node) => Value::Set(set.with(node)),
            _ => Value::Int(0),
        },
        _ => Value::Int(0),
    }
}

fn without(a: Value, b: Value) -> Value
    ensures { result ≡ two_of Op.Without a b }
{
    match a {
        Value::Set(set) => match b {
            Value::Node(node) => Value::Set(set.without(node)),
            _ => Value::Int(0),
        },
        _ => Value::Int(0),
    }
}

fn equal(a: Value, b: Value) -> bool
    ensures { result ≡ same_value a b }
{
    match a {
        Value::Int(a) => match b {
            Value::Int(b) => a == b,
            _ => false,
        },
        Value::Bool(a) => match b {
            Value::Bool(b) => a == b,
            _ => false,
        },
        Value::Node(a) => match b {
            Value::Node(b) => a.get() == b.get(),
            _ => false,
        },
        Value::Set(a) => match b {
            Value::Set(b) => a == b,
            _ => false,
        },
    }
}

/// The value that a variable of a type begins with.
pub fn zero(ty: ValType) -> Value
    ensures { result ≡ zero_of ty }
{
    match ty {
        ValType::Int => Value::Int(0),
        ValType::Bool => Value::Bool(false),
        ValType::Node => Value::Node(NodeId::new(0).unwrap()),
        ValType::Set => Value::Set(NodeSet::empty()),
    }
}

/// The node, 0 where there is none.
pub fn node(value: Value) -> NodeId
    ensures { result ≡ node_of value }
{
    match value {
        Value::Node(n) => n,
        _ => NodeId::new(0).unwrap(),
    }
}

/// The set, empty where there is none.
pub fn set_of(value: Value) -> NodeSet
    ensures { result ≡ set_of value }
{
    match value {
        Value::Set(set) => set,
        _ => NodeSet::empty(),
    }
}
