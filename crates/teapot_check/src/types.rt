ghost use Rattle.std.specs.Prelude.{◌≡◌, ◌&&◌};
ghost use Rattle.teapot_tree.specs.Rules.{type_in};
ghost use Rattle.teapot_tree.specs.Scopes.{are_alike, is_of, type_of, type_of_two, where_of};
ghost use Rattle.teapot_rules.specs.Deeds.{scope_of};
ghost use Rattle.teapot_check.specs.Variables.{variables_of};

use crate::noted::Noted;
use crate::sight::Sight;
use crate::variables::type_among;
use teapot_rules::is_of;
use teapot_tree::{Expr, Op, ValType};

fn where_of(holds: bool, ty: ValType) -> Option<ValType>
    ensures { result ≡ where_of holds ty }
{
    if holds { Some(ty) } else { None }
}

fn are_alike(a: Option<ValType>, b: Option<ValType>) -> bool
    ensures { result ≡ are_alike a b }
{
    match a {
        None => false,
        Some(ty) => is_of(ty, b),
    }
}

fn are_of(first: ValType, a: Option<ValType>, second: ValType, b: Option<ValType>) -> bool
    ensures { result ≡ (is_of first a && is_of second b) }
{
    is_of(first, a) && is_of(second, b)
}

fn type_of_two(op: Op, a: Option<ValType>, b: Option<ValType>) -> Option<ValType>
    ensures { result ≡ type_of_two op a b }
{
    match op {
        Op::Add => where_of(are_of(ValType::Int, a, ValType::Int, b), ValType::Int),
        Op::Sub => where_of(are_of(ValType::Int, a, ValType::Int, b), ValType::Int),
        Op::Eq => where_of(are_alike(a, b), ValType::Bool),
        Op::Ne => where_of(are_alike(a, b), ValType::Bool),
        Op::Lt => where_of(are_of(ValType::Int, a, ValType::Int, b), ValType::Bool),
        Op::Le => where_of(are_of(ValType::Int, a, ValType::Int, b), ValType::Bool),
        Op::And => where_of(are_of(ValType::Bool, a, ValType::Bool, b), ValType::Bool),
        Op::Or => where_of(are_of(ValType::Bool, a, ValType::Bool, b), ValType::Bool),
        Op::Has => where_of(are_of(ValType::Set, a, ValType::Node, b), ValType::Bool),
        Op::With => where_of(are_of(ValType::Set, a, ValType::Node, b), ValType::Set),
        Op::Without => where_of(are_of(ValType::Set, a, ValType::Node, b), ValType::Set),
    }
}

/// The type of an expression over these variables. None where some operator takes a value of another type.
#[tactic(auto, unfolding(teapot_tree::specs::Scopes::type_of))]
fn type_of(variables: &[Noted], e: &Expr) -> Option<ValType>
    ensures { result ≡ type_of (variables_of variables.now) e.now }
{
    match e {
        Expr::Number(_) => Some(ValType::Int),
        Expr::True => Some(ValType::Bool),
        Expr::False => Some(ValType::Bool),
        Expr::Empty => Some(ValType::Set),
        Expr::Src => Some(ValType::Node),
        Expr::SelfNode => Some(ValType::Node),
        Expr::Home => Some(ValType::Node),
        Expr::Var(name) => type_among(variables, name),
        Expr::One(a) => where_of(
            is_of(ValType::Node, type_of(variables, a.get())),
            ValType::Set,
        ),
        Expr::Not(a) => where_of(
            is_of(ValType::Bool, type_of(variables, a.get())),
            ValType::Bool,
        ),
        Expr::Count(a) => where_of(
            is_of(ValType::Set, type_of(variables, a.get())),
            ValType::Int,
        ),
        Expr::Two(op, a, b) => {
            let a = type_of(variables, a.get());
            let b = type_of(variables, b.get());
            type_of_two(*op, a, b)
        }
    }
}

/// The type of an expression in a handler.
pub fn type_in(sight: &Sight, e: &Expr) -> Option<ValType>
    ensures { result ≡ type_in (scope_of sight.now.scope) e.now }
{
    type_of(sight.variables(), e)
}
