ghost use Rattle.std.specs.Prelude.{◌≡◌, ◌++◌, map, IfOk, OnOk};
ghost use Rattle.teapot_tree.specs.Rules.{visible_names};
ghost use Rattle.teapot_rules.specs.Deeds.{scope_of};

use crate::handler_scope::Scope;
use std::alloc::Global;
use teapot_tree::Param;
use tw_base::{Listed, Memory, Name};

fn add_params(
    alloc: Global,
    names: &mut Listed<(Name, u32)>,
    params: &[Param],
) -> Result<(), Memory>
    ensures { OnOk result (names.new ≡ names.old ++ map (λ a. (a.name, a.line)) params.now) }
{
    for a in params {
        names.push((a.name.copy(alloc)?, a.line))?;
    }
    Ok(())
}

fn add_args(
    alloc: Global,
    names: &mut Listed<(Name, u32)>,
    args: &[Name],
    line: u32,
) -> Result<(), Memory>
    ensures { OnOk result (names.new ≡ names.old ++ map (λ n. (n, line)) args.now) }
{
    for a in args {
        names.push((a.copy(alloc)?, line))?;
    }
    Ok(())
}

/// The names that are visible in a handler, and where each is declared.
pub fn visible_names(alloc: Global, scope: &Scope) -> Result<Listed<(Name, u32)>, Memory>
    ensures { IfOk result (λ ns. ns ≡ visible_names (scope_of scope.now)) }
{
    let mut names = Listed::new(alloc);
    add_params(alloc, &mut names, scope.protocol.infos.items())?;
    add_params(alloc, &mut names, scope.state.params.items())?;
    add_args(
        alloc,
        &mut names,
        scope.handler.args.items(),
        scope.handler.line,
    )?;
    add_params(alloc, &mut names, scope.handler.locals.items())?;
    Ok(names)
}
