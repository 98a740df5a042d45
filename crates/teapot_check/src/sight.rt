ghost use Rattle.std.specs.Prelude.{◌≡◌, IfOk};
ghost use Rattle.teapot_tree.specs.Scopes.{args_of, assignable, locals_in, taken_message, type_among, visible};
ghost use Rattle.teapot_rules.specs.Deeds.{scope_of};
ghost use Rattle.teapot_check.specs.Variables.{variables_of};

use crate::noted::Noted;
use crate::variables::{note_args, note_params, type_among};
use std::alloc::Global;
use teapot_rules::{Scope, taken_message};
use teapot_tree::ValType;
use tw_base::{Listed, Memory, Name};

/// A handler in its state and protocol, with a table of the variables that are visible in it.
#[derive(Drop)]
pub struct Sight<'a> {
    pub scope: Scope<'a>,
    variables: Listed<Noted<'a>>,
    ghost tabled: { variables_of variables ≡ visible (scope_of scope) },
}

/// The types of the arguments of the message that the handler is for.
fn taken_types<'a>(scope: &Scope<'a>) -> &'a [ValType]
    ensures { result.now ≡ args_of (taken_message scope.now.protocol.now scope.now.handler.now.on) }
{
    match taken_message(scope.protocol, &scope.handler.on) {
        Some(m) => m.args.items(),
        None => &[],
    }
}

fn variables_in<'a>(alloc: Global, scope: &Scope<'a>) -> Result<Listed<Noted<'a>>, Memory>
    ensures { IfOk result (λ all. variables_of all ≡ visible (scope_of scope.now)) }
{
    let mut all = Listed::new(alloc);
    note_params(&mut all, scope.protocol.infos.items())?;
    note_params(&mut all, scope.state.params.items())?;
    note_args(&mut all, scope.handler.args.items(), taken_types(scope))?;
    note_params(&mut all, scope.handler.locals.items())?;
    Ok(all)
}

impl<'a> Sight<'a> {
    pub fn new(alloc: Global, scope: Scope<'a>) -> Result<Sight<'a>, Memory>
        ensures { IfOk result (λ sight. scope_of sight.scope ≡ scope_of scope.entry) }
    {
        let variables = variables_in(alloc, &scope)?;
        Ok(Sight { scope, variables })
    }

    /// The variables that are visible in the handler.
    pub fn variables(&self) -> &[Noted<'a>]
        ensures { variables_of result.now ≡ visible (scope_of self.now.scope) }
    {
        self.variables.items()
    }

    /// The type of the local of the name.
    pub fn local_type(&self, name: &Name) -> Option<ValType>
        ensures { result ≡ type_among (locals_in (scope_of self.now.scope)) name.now }
    {
        let all = self.variables();
        type_among(&all[all.len() - self.scope.handler.locals.len()..], name)
    }

    /// The type of the info or local of the name.
    pub fn assigned_type(&self, name: &Name) -> Option<ValType>
        ensures { result ≡ type_among (assignable (scope_of self.now.scope)) name.now }
    {
        let infos = &self.variables()[..self.scope.protocol.infos.len()];
        match type_among(infos, name) {
            Some(ty) => Some(ty),
            None => self.local_type(name),
        }
    }
}
