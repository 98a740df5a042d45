ghost use Rattle.std.specs.Prelude.{◌≡◌, map, slice_get};
ghost use Rattle.teapot_tree.specs.declared.protocol.Param.{Param};
ghost use Rattle.teapot_tree.specs.Rules.{are_fit, is_fit, types_in, is_typed, message_types, state_types};
ghost use Rattle.teapot_rules.specs.Deeds.{scope_of, deed_of};

use crate::sight::Sight;
use crate::types::type_in;
use teapot_rules::{is_of, message_of, state_of};
use teapot_tree::{Do, Expr, Param, ValType};
use tw_base::Name;

/// Whether what is found has the type that is declared, if one is, and else some type.
fn is_fit(ty: Option<ValType>, found: Option<ValType>) -> bool
    ensures { result ≡ is_fit ty found }
{
    match ty {
        None => found.is_some(),
        Some(ty) => is_of(ty, found),
    }
}

/// Whether each argument has the type that is declared for its place, if one is, and else some type.
pub fn are_fit(sight: &Sight, types: &[ValType], args: &[Expr]) -> bool
    ensures { result ≡ are_fit types.now (types_in (scope_of sight.now.scope) args.now) }
{
    for (at, e) in args.iter().enumerate() {
        if !is_fit(types.get(at).copied(), type_in(sight, e)) {
            return false;
        }
    }
    true
}

/// The type of the parameter at a place, if there is one.
fn type_at(params: &[Param], at: usize) -> Option<ValType>
    ensures { result ≡ slice_get (map (λ (a : Param). a.ty) params.now) at }
{
    match params.get(at) {
        Some(a) => Some(a.ty),
        None => None,
    }
}

pub fn are_fit_params(sight: &Sight, params: &[Param], args: &[Expr]) -> bool
    ensures { result ≡ are_fit (map (λ (a : Param). a.ty) params.now) (types_in (scope_of sight.now.scope) args.now) }
{
    for (at, e) in args.iter().enumerate() {
        if !is_fit(type_at(params, at), type_in(sight, e)) {
            return false;
        }
    }
    true
}

/// Whether the arguments fit the message of the name.
fn fits_message(sight: &Sight, name: &Name, args: &[Expr]) -> bool
    ensures { result ≡ are_fit (message_types (scope_of sight.now.scope) name.now)
        (types_in (scope_of sight.now.scope) args.now) }
{
    match message_of(sight.scope.protocol, name) {
        Some(m) => are_fit(sight, m.args.items(), args),
        None => are_fit(sight, &[], args),
    }
}

/// Whether the arguments fit the state of the name.
fn fits_state(sight: &Sight, name: &Name, args: &[Expr]) -> bool
    ensures { result ≡ are_fit (state_types (scope_of sight.now.scope) name.now) (types_in (scope_of sight.now.scope) args.now) }
{
    match state_of(sight.scope.protocol, name) {
        Some(s) => are_fit_params(sight, s.params.items(), args),
        None => are_fit(sight, &[], args),
    }
}

/// Whether a statement takes values of its types.
pub fn is_typed(sight: &Sight, what: &Do) -> bool
    ensures { result ≡ is_typed (scope_of sight.now.scope) (deed_of what.now) }
{
    match what {
        Do::Assign(name, e) => is_fit(sight.assigned_type(name), type_in(sight, e)),
        Do::If(e, _, _) => is_of(ValType::Bool, type_in(sight, e)),
        Do::Send(e, name, args) => {
            is_of(ValType::Node, type_in(sight, e)) && fits_message(sight, name, args.items())
        }
        Do::SendAll(e, name, args) => {
            is_of(ValType::Set, type_in(sight, e)) && fits_message(sight, name, args.items())
        }
        Do::SetState(name, args) => fits_state(sight, name, args.items()),
        Do::Suspend(_, name, args, _) => fits_state(sight, name, args.items()),
        Do::ForEach(name, e, _) => {
            is_of(ValType::Node, sight.local_type(name)) && is_of(ValType::Set, type_in(sight, e))
        }
        _ => true,
    }
}
