ghost use Rattle.std.specs.Prelude.{◌≡◌, ◌&&◌};
ghost use Rattle.teapot_tree.specs.Scopes.{same_type, is_of, where_of, are_alike, type_of_two, type_of, visible};
ghost use Rattle.teapot_rules.specs.Deeds.{scope_of};
ghost use Rattle.teapot_rules.specs.Names.{all_seen};

use crate::handler_scope::Scope;
use crate::scope::{name_type, sees};
use teapot_tree::{Expr, Op, ValType};

fn same_type(a: ValType, b: ValType) -> bool
    ensures { result ≡ same_type a b }
{
    match a {
        ValType::Int => matches!(b, ValType::Int),
        ValType::Bool => matches!(b, ValType::Bool),
        ValType::Node => matches!(b, ValType::Node),
        ValType::Set => matches!(b, ValType::Set),
    }
}

/// Whether what it is found to be is this type.
pub fn is_of(ty: ValType, found: Option<ValType>) -> bool
    ensures { result ≡ is_of ty found }
{
    match found {
        None => false,
        Some(found) => same_type(ty, found),
    }
}

fn where_of(holds: bool, ty: ValType) -> Option<ValType>
    ensures { result ≡ where_of holds ty }
{
    if holds { Some(ty) } else { None }
}

fn are_alike(a: Option<ValType>, b: Option<ValType>) -> bool
    ensures { result ≡ are_alike a b }
{
    match a {
        None => false,
        Some(ty) => is_of(ty, b),
    }
}

fn are_of(first: ValType, a: Option<ValType>, second: ValType, b: Option<ValType>) -> bool
    ensures { result ≡ (is_of first a && is_of second b) }
{
    is_of(first, a) && is_of(second, b)
}

fn type_of_two(op: Op, a: Option<ValType>, b: Option<ValType>) -> Option<ValType>
    ensures { result ≡ type_of_two op a b }
{
    match op {
        Op::Add => where_of(are_of(ValType::Int, a, ValType::Int, b), ValType::Int),
        Op::Sub => where_of(are_of(ValType::Int, a, ValType::Int, b), ValType::Int),
        Op::Eq => where_of(are_alike(a, b), ValType::Bool),
        Op::Ne => where_of(are_alike(a, b), ValType::Bool),
        Op::Lt => where_of(are_of(ValType::Int, a, ValType::Int, b), ValType::Bool),
        Op::Le => where_of(are_of(ValType::Int, a, ValType::Int, b), ValType::Bool),
        Op::And => where_of(are_of(ValType::Bool, a, ValType::Bool, b), ValType::Bool),
        Op::Or => where_of(are_of(ValType::Bool, a, ValType::Bool, b), ValType::Bool),
        Op::Has => where_of(are_of(ValType::Set, a, ValType::Node, b), ValType::Bool),
        Op::With => where_of(are_of(ValType::Set, a, ValType::Node, b), ValType::Set),
        Op::Without => where_of(are_of(ValType::Set, a, ValType::Node, b), ValType::Set),
    }
}

/// The type of an expression in a handler. None where some operator takes a value of another type.
#[tactic(auto, unfolding(teapot_tree::specs::Scopes::type_of))]
pub fn type_of(scope: &Scope, e: &Expr) -> Option<ValType>
    ensures { result ≡ type_of (visible (scope_of scope.now)) e.now }
{
    match e {
        Expr::Number(_) => Some(ValType::Int),
        Expr::True => Some(ValType::Bool),
        Expr::False => Some(ValType::Bool),
        Expr::Empty => Some(ValType::Set),
        Expr::Src => Some(ValType::Node),
        Expr::SelfNode => Some(ValType::Node),
        Expr::Home => Some(ValType::Node),
        Expr::Var(name) => name_type(scope, name),
        Expr::One(a) => where_of(is_of(ValType::Node, type_of(scope, a.get())), ValType::Set),
        Expr::Not(a) => where_of(is_of(ValType::Bool, type_of(scope, a.get())), ValType::Bool),
        Expr::Count(a) => where_of(is_of(ValType::Set, type_of(scope, a.get())), ValType::Int),
        Expr::Two(op, a, b) => {
            let a = type_of(scope, a.get());
            let b = type_of(scope, b.get());
            type_of_two(*op, a, b)
        }
    }
}

/// Whether each name in an expression is visible in the handler.
#[tactic(auto, unfolding(crate::specs::Names::all_seen))]
pub fn sees_expr(scope: &Scope, e: &Expr) -> bool
    ensures { result ≡ all_seen (visible (scope_of scope.now)) e.now }
{
    match e {
        Expr::Number(_) => true,
        Expr::True => true,
        Expr::False => true,
        Expr::Empty => true,
        Expr::Src => true,
        Expr::SelfNode => true,
        Expr::Home => true,
        Expr::Var(name) => sees(scope, name),
        Expr::One(a) => sees_expr(scope, a.get()),
        Expr::Not(a) => sees_expr(scope, a.get()),
        Expr::Count(a) => sees_expr(scope, a.get()),
        Expr::Two(_, a, b) => sees_expr(scope, a.get()) && sees_expr(scope, b.get()),
    }
}
