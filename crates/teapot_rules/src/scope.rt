ghost use Rattle.std.specs.Prelude.{◌≡◌, ◌||◌, ◌&&◌, map, option_copied, slice_get};
ghost use Rattle.teapot_tree.specs.Scopes.{message_of, state_of, taken_message, typed, args_of, is_among, type_among};
ghost use Rattle.teapot_tree.specs.Scopes.{locals_in, assignable, visible};
ghost use Rattle.teapot_rules.specs.Deeds.{scope_of};
ghost use Rattle.teapot_rules.specs.Names.{among_params, type_in_params, among_names, inner};

use crate::handler_scope::Scope;
use teapot_tree::{MessageDecl, Param, Protocol, State, Trigger, ValType};
use tw_base::Name;

/// The first message of this name.
pub fn message_of<'a>(protocol: &'a Protocol, name: &Name) -> Option<&'a MessageDecl>
    ensures { option_copied result ≡ message_of protocol.now name.now }
{
    protocol
        .messages
        .items()
        .iter()
        .find(|m| m.name.is(name.bytes()))
}

/// The first state of this name.
pub fn state_of<'a>(protocol: &'a Protocol, name: &Name) -> Option<&'a State>
    ensures { option_copied result ≡ state_of protocol.now name.now }
{
    protocol
        .states
        .items()
        .iter()
        .find(|s| s.name.is(name.bytes()))
}

/// The message that a handler is for.
pub fn taken_message<'a>(protocol: &'a Protocol, on: &Trigger) -> Option<&'a MessageDecl>
    ensures { option_copied result ≡ taken_message protocol.now on.now }
{
    match on {
        Trigger::RdFault => None,
        Trigger::WrFault => None,
        Trigger::Named(name) => message_of(protocol, name),
        Trigger::Default => None,
    }
}

fn is_param(params: &[Param], name: &Name) -> bool
    ensures { result ≡ among_params params.now name.now }
{
    params.iter().any(|a| a.name.is(name.bytes()))
}

/// The type of the first of these of the name.
fn param_type(params: &[Param], name: &Name) -> Option<ValType>
    ensures { result ≡ type_in_params params.now name.now }
{
    match params.iter().find(|a| a.name.is(name.bytes())) {
        Some(a) => Some(a.ty),
        None => None,
    }
}

/// The types of the arguments of the message that the handler is for.
fn taken_types<'a>(scope: &Scope<'a>) -> &'a [ValType]
    ensures { result.now ≡ args_of (taken_message scope.now.protocol.now scope.now.handler.now.on) }
{
    match taken_message(scope.protocol, &scope.handler.on) {
        Some(m) => m.args.items(),
        None => &[],
    }
}

/// Whether an argument of the handler has the name.
fn is_arg(scope: &Scope, name: &Name) -> bool
    ensures { result ≡ among_names scope.now.handler.now.args name.now }
{
    scope.args.position(name).is_some()
}

fn type_at(types: &[ValType], at: usize) -> Option<ValType>
    ensures { result ≡ slice_get types.now at }
{
    types.get(at).copied()
}

/// The type that is declared for the handler's first argument of the name.
fn arg_type(scope: &Scope, name: &Name) -> Option<ValType>
    ensures { result
        ≡ type_among (typed scope.now.handler.now.args (args_of
        (taken_message scope.now.protocol.now scope.now.handler.now.on))) name.now }
{
    let at = scope.args.position(name)?;
    type_at(taken_types(scope), at)
}

/// Whether a variable of the name is visible in the handler.
pub fn sees(scope: &Scope, name: &Name) -> bool
    ensures { result ≡ is_among (visible (scope_of scope.now)) name.now }
{
    let outer = is_param(scope.protocol.infos.items(), name);
    let param = is_param(scope.state.params.items(), name);
    let arg = is_arg(scope, name);
    let local = is_param(scope.handler.locals.items(), name);
    outer | (param | (arg | local))
}

/// Whether a local has the name.
#[tactic(auto, using(crate::proofs::Seeing::among_params_is))]
pub fn has_local(scope: &Scope, name: &Name) -> bool
    ensures { result ≡ is_among (locals_in (scope_of scope.now)) name.now }
{
    is_param(scope.handler.locals.items(), name)
}

/// Whether an info or a local has the name.
pub fn assigns(scope: &Scope, name: &Name) -> bool
    ensures { result ≡ is_among (assignable (scope_of scope.now)) name.now }
{
    let info = is_param(scope.protocol.infos.items(), name);
    let local = is_param(scope.handler.locals.items(), name);
    info | local
}

#[tactic(auto, using(crate::proofs::Seeing::type_params_is))]
pub fn local_type(scope: &Scope, name: &Name) -> Option<ValType>
    ensures { result ≡ type_among (locals_in (scope_of scope.now)) name.now }
{
    param_type(scope.handler.locals.items(), name)
}

pub fn assigned_type(scope: &Scope, name: &Name) -> Option<ValType>
    ensures { result ≡ type_among (assignable (scope_of scope.now)) name.now }
{
    if is_param(scope.protocol.infos.items(), name) {
        return param_type(scope.protocol.infos.items(), name);
    }
    param_type(scope.handler.locals.items(), name)
}

/// The type of the arguments of a handler for a message, or of its locals.
fn inner_type(scope: &Scope, name: &Name) -> Option<ValType>
    ensures { result ≡ type_among (inner (scope_of scope.now)) name.now }
{
    if is_arg(scope, name) {
        return arg_type(scope, name);
    }
    param_type(scope.handler.locals.items(), name)
}

/// The type of the visible variable of the name.
pub fn name_type(scope: &Scope, name: &Name) -> Option<ValType>
    ensures { result ≡ type_among (visible (scope_of scope.now)) name.now }
{
    if is_param(scope.protocol.infos.items(), name) {
        return param_type(scope.protocol.infos.items(), name);
    }
    if is_param(scope.state.params.items(), name) {
        return param_type(scope.state.params.items(), name);
    }
    inner_type(scope, name)
}
