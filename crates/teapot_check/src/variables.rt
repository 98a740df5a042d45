ghost use Rattle.std.specs.Prelude.{◌≡◌, ◌++◌, ◌∷◌, [], map, OnOk, slice_get};
ghost use Rattle.std.specs.Option.{option_map};
ghost use Rattle.std.specs.Str.{bytes_eq};
ghost use Rattle.teapot_tree.specs.Scopes.{is_among, of_param, type_among, typed, variable};
ghost use Rattle.teapot_check.specs.Marks.{mark_of};
ghost use Rattle.teapot_check.specs.Variables.{variable_of, variables_of};

use crate::noted::{Noted, mark_of};
use teapot_tree::{Param, ValType};
use tw_base::{Listed, Memory, Name};

fn note<'a>(
    variables: &mut Listed<Noted<'a>>,
    name: &'a Name,
    ty: Option<ValType>,
) -> Result<(), Memory>
    ensures { OnOk result (variables_of variables.new ≡ variables_of variables.old ++ record { name = name.now; ty = ty } ∷ []) }
{
    let mark = mark_of(name);
    variables.push(Noted { name, mark, ty })
}

/// Adds a variable for each of these.
pub fn note_params<'a>(variables: &mut Listed<Noted<'a>>, params: &'a [Param]) -> Result<(), Memory>
    ensures { OnOk result (variables_of variables.new ≡ variables_of variables.old ++ map of_param params.now) }
{
    for a in params {
        note(variables, &a.name, Some(a.ty))?;
    }
    Ok(())
}

/// The type at a place, if there is one.
fn type_at(types: &[ValType], at: usize) -> Option<ValType>
    ensures { result ≡ slice_get types.now at }
{
    types.get(at).copied()
}

/// Adds a variable for each argument of a message that is declared with these types.
pub fn note_args<'a>(
    variables: &mut Listed<Noted<'a>>,
    args: &'a [Name],
    types: &[ValType],
) -> Result<(), Memory>
    ensures { OnOk result (variables_of variables.new ≡ variables_of variables.old ++ typed args.now types.now) }
{
    for (at, name) in args.iter().enumerate() {
        note(variables, name, type_at(types, at))?;
    }
    Ok(())
}

/// Whether it is a variable of the name.
#[tactic(auto, using(crate::proofs::Tables::unmarked))]
fn is_named(v: &Noted, mark: u32, name: &Name) -> bool
    requires { mark ≡ mark_of name.now }
    ensures { result ≡ bytes_eq v.now.name.now name.now }
{
    v.mark == mark && v.name.is(name.bytes())
}

/// The first variable of the name.
fn variable<'v, 'a>(variables: &'v [Noted<'a>], mark: u32, name: &Name) -> Option<&'v Noted<'a>>
    requires { mark ≡ mark_of name.now }
    ensures { option_map (λ v. variable_of v.now) result ≡ variable (variables_of variables.now) name.now }
{
    for v in variables {
        if is_named(v, mark, name) {
            return Some(v);
        }
    }
    None
}

/// Whether a variable has the name.
pub fn has_variable(variables: &[Noted], mark: u32, name: &Name) -> bool
    requires { mark ≡ mark_of name.now }
    ensures { result ≡ is_among (variables_of variables.now) name.now }
{
    variable(variables, mark, name).is_some()
}

/// The type of the first variable of the name.
pub fn type_among(variables: &[Noted], name: &Name) -> Option<ValType>
    ensures { result ≡ type_among (variables_of variables.now) name.now }
{
    match variable(variables, mark_of(name), name) {
        Some(v) => v.ty,
        None => None,
    }
}
