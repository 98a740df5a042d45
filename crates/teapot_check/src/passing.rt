ghost use Rattle.std.specs.Prelude.{◌≡◌, ◌&&◌, [], IsTrue};
ghost use Rattle.teapot_tree.specs.declared.rule.Rule.{Rule};
ghost use Rattle.teapot_tree.specs.Bodies.{body_of};
ghost use Rattle.teapot_tree.specs.Rules.{has_cont};
ghost use Rattle.teapot_tree.specs.Scopes.{state_of};
ghost use Rattle.teapot_rules.specs.Deeds.{deed_of, scope_of};
ghost use Rattle.teapot_rules.specs.Faults.{body_lines, handler_lines, same_truth};
ghost use Rattle.teapot_rules.specs.Stmts.{stmt_body};
ghost use Rattle.teapot_rules.specs.Walks.{meets};
ghost use Rattle.teapot_check.specs.Passing.{HeadsWell, KeepsOrder, is_given, is_placed, looked, passes, recurs, takes_message};
ghost use Rattle.teapot_check.specs.Passing.{takes_state};
ghost use Rattle.teapot_check.specs.Variables.{variables_of};

use crate::fits::{are_fit, are_fit_params};
use crate::noted::Noted;
use crate::sight::Sight;
use crate::types::type_in;
use crate::variables::has_variable;
use crate::walk::body_line;
use teapot_rules::{
    answers_undeclared, counts_wrongly, is_of, lacks_data, message_of, most, resumes_foreign,
    state_of,
};
use teapot_tree::{Do, Expr, Rule, Stmt, ValType};
use tw_base::Name;

/// What is looked for among statements.
#[derive(Clone, Copy)]
pub enum Look {
    /// One that breaks a rule that looks at it alone, or may do so.
    Stopped,
    /// One at which a rule may be broken that looks at what comes before or behind.
    Placed,
}

/// Whether some type is declared, and it is found.
fn is_given(ty: Option<ValType>, found: Option<ValType>) -> bool
    ensures { result ≡ is_given ty found }
{
    match ty {
        None => false,
        Some(ty) => is_of(ty, found),
    }
}

/// Whether there is a message of the name that takes these arguments.
fn takes_message(sight: &Sight, name: &Name, args: &[Expr]) -> bool
    ensures { result ≡ takes_message (scope_of sight.now.scope) name.now args.now }
{
    match message_of(sight.scope.protocol, name) {
        None => false,
        Some(m) => args.len() == m.args.len() && are_fit(sight, m.args.items(), args),
    }
}

/// Whether there is a state of the name that takes these arguments, and a continuation where it is to.
fn takes_state(sight: &Sight, cont: bool, name: &Name, args: &[Expr]) -> bool
    ensures { result ≡ (same_truth cont (has_cont (state_of sight.now.scope.protocol.now name.now)) &&
        takes_state (scope_of sight.now.scope) name.now args.now) }
{
    match state_of(sight.scope.protocol, name) {
        None => false,
        Some(s) => {
            s.cont.is_some() == cont
                && args.len() == s.params.len()
                && are_fit_params(sight, s.params.items(), args)
        }
    }
}

/// Whether the statement breaks no rule that looks at it alone.
fn passes(sight: &Sight, what: &Do) -> bool
    ensures { result ≡ passes (scope_of sight.now.scope) (deed_of what.now) }
{
    match what {
        Do::Assign(name, e) => is_given(sight.assigned_type(name), type_in(sight, e)),
        Do::If(e, _, _) => is_of(ValType::Bool, type_in(sight, e)),
        Do::Send(e, name, args) => {
            is_of(ValType::Node, type_in(sight, e)) && takes_message(sight, name, args.items())
        }
        Do::SendAll(e, name, args) => {
            is_of(ValType::Set, type_in(sight, e)) && takes_message(sight, name, args.items())
        }
        Do::SetState(name, args) => {
            takes_state(sight, sight.scope.state.cont.is_some(), name, args.items())
        }
        Do::Suspend(label, name, args, passed) => {
            passed.is(label.bytes()) && takes_state(sight, true, name, args.items())
        }
        Do::Resume(_) => !resumes_foreign(&sight.scope, what),
        Do::Install => !lacks_data(&sight.scope, what),
        Do::ForEach(name, e, _) => {
            is_of(ValType::Node, sight.local_type(name)) && is_of(ValType::Set, type_in(sight, e))
        }
        _ => true,
    }
}

/// Whether a rule may be broken at the statement that looks at what comes before or behind.
fn is_placed(what: &Do) -> bool
    ensures { result ≡ is_placed (deed_of what.now) }
{
    match what {
        Do::Enqueue => true,
        Do::Install => true,
        Do::Resume(_) => true,
        _ => false,
    }
}

fn is_looked(look: Look, sight: &Sight, what: &Do) -> bool
    ensures { result ≡ looked look (scope_of sight.now.scope) (deed_of what.now) }
{
    match look {
        Look::Stopped => !passes(sight, what),
        Look::Placed => is_placed(what),
    }
}

/// Whether what is looked for stands somewhere in the statements.
#[cycle(finds)]
fn finds(look: Look, sight: &Sight, stmts: &[Stmt]) -> bool
    ensures { result ≡ meets (looked look (scope_of sight.now.scope)) (body_of stmts.now) }
{
    for s in stmts {
        if finds_in(look, sight, s) {
            return true;
        }
    }
    false
}

#[cycle(finds)]
fn finds_in(look: Look, sight: &Sight, stmt: &Stmt) -> bool
    ensures { result ≡ meets (looked look (scope_of sight.now.scope)) (stmt_body stmt.now) }
{
    if is_looked(look, sight, &stmt.what) {
        return true;
    }
    match &stmt.what {
        Do::If(_, first, second) => match second {
            None => finds(look, sight, first.items()),
            Some(second) => {
                finds(look, sight, first.items()) | finds(look, sight, second.items())
            }
        },
        Do::ForEach(_, _, body) => finds(look, sight, body.items()),
        _ => false,
    }
}

/// Whether a variable has the name of an earlier one.
fn recurs(variables: &[Noted]) -> bool
    ensures { result ≡ recurs [] (variables_of variables.now) }
{
    for (at, v) in variables.iter().enumerate() {
        if has_variable(&variables[..at], v.mark, v.name) {
            return true;
        }
    }
    false
}

/// Whether no statement of the handler breaks the rule.
fn keeps(sight: &Sight, rule: Rule) -> bool
    ensures { IsTrue result → body_lines rule (scope_of sight.now.scope) ≡ [] }
{
    match body_line(sight, rule) {
        None => true,
        Some(_) => false,
    }
}

/// Whether no rule is broken that looks at what comes before or behind.
fn keeps_order(sight: &Sight) -> bool
    ensures { IsTrue result → KeepsOrder (scope_of sight.now.scope) }
{
    if !finds(Look::Placed, sight, sight.scope.handler.body.items()) {
        return true;
    }
    if !keeps(sight, Rule::Twice) {
        return false;
    }
    if !keeps(sight, Rule::ResumeNotLast) {
        return false;
    }
    keeps(sight, Rule::AfterSuspend)
}

/// Whether the line of the handler breaks no rule, nor do its variables and the count of its messages.
fn heads_well(sight: &Sight) -> bool
    ensures { IsTrue result → HeadsWell (scope_of sight.now.scope) }
{
    let handler = sight.scope.handler;
    if answers_undeclared(sight.scope.protocol, &handler.on) {
        return false;
    }
    if counts_wrongly(sight.scope.protocol, &handler.on, handler.args.items()) {
        return false;
    }
    if most(handler.body.items()) > 32 {
        return false;
    }
    !recurs(sight.variables())
}

/// Whether the handler breaks no rule, at one look at each of its statements. Where it does not pass, it may still break
/// none.
pub fn passes_all(sight: &Sight) -> bool
    ensures { IsTrue result → (r : Rule) → handler_lines r (scope_of sight.now.scope) ≡ [] }
{
    if !heads_well(sight) {
        return false;
    }
    if finds(Look::Stopped, sight, sight.scope.handler.body.items()) {
        return false;
    }
    keeps_order(sight)
}
