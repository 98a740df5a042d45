ghost use Rattle.std.specs.Prelude.{◌≡◌};
ghost use Rattle.std.specs.List.{list_all};
ghost use Rattle.teapot_tree.specs.Paths.{is_enqueue, is_suspend, is_resume};
ghost use Rattle.teapot_tree.specs.Rules.{exprs_at, is_declared, uses_undeclared, is_counted, is_message_count, is_state_count};
ghost use Rattle.teapot_tree.specs.Rules.{has_cont, lacks_cont, drops_cont, resumes_foreign, lacks_data, is_cont, carries};
ghost use Rattle.teapot_tree.specs.Rules.{is_late};
ghost use Rattle.teapot_tree.specs.Scopes.{message_of, state_of, taken_message, visible};
ghost use Rattle.teapot_rules.specs.Deeds.{scope_of, deed_of, comes_first};
ghost use Rattle.teapot_rules.specs.Names.{all_seen};

use crate::handler_scope::Scope;
use crate::scope::{assigns, has_local, message_of, state_of, taken_message};
use crate::types::sees_expr;
use teapot_tree::{Do, Expr, Protocol, Rule};
use tw_base::Name;

fn is_enqueue(what: &Do) -> bool
    ensures { result ≡ is_enqueue (deed_of what.now) }
{
    match what {
        Do::Enqueue => true,
        _ => false,
    }
}

fn is_suspend(what: &Do) -> bool
    ensures { result ≡ is_suspend (deed_of what.now) }
{
    match what {
        Do::Suspend(_, _, _, _) => true,
        _ => false,
    }
}

pub fn is_resume(what: &Do) -> bool
    ensures { result ≡ is_resume (deed_of what.now) }
{
    match what {
        Do::Resume(_) => true,
        _ => false,
    }
}

pub fn is_late(profile: u8, what: &Do) -> bool
    ensures { result ≡ is_late profile (deed_of what.now) }
{
    match what {
        Do::Enqueue => true,
        Do::Install => profile == 1,
        _ => false,
    }
}

/// Whether each name in each expression is visible in the handler.
fn sees_all(scope: &Scope, exprs: &[Expr]) -> bool
    ensures { result ≡ list_all (all_seen (visible (scope_of scope.now))) exprs.now }
{
    exprs.iter().all(|e| sees_expr(scope, e))
}

fn is_declared(scope: &Scope, what: &Do) -> bool
    ensures { result ≡ is_declared (scope_of scope.now) (deed_of what.now) }
{
    match what {
        Do::Assign(name, _) => assigns(scope, name),
        Do::Send(_, name, _) => message_of(scope.protocol, name).is_some(),
        Do::SendAll(_, name, _) => message_of(scope.protocol, name).is_some(),
        Do::SetState(name, _) => state_of(scope.protocol, name).is_some(),
        Do::Suspend(label, name, _, passed) => {
            state_of(scope.protocol, name).is_some() && passed.is(label.bytes())
        }
        Do::ForEach(name, _, _) => has_local(scope, name),
        _ => true,
    }
}

pub fn comes_first(rule: Rule, what: &Do) -> bool
    ensures { result ≡ comes_first rule (deed_of what.now) }
{
    match rule {
        Rule::Twice => is_enqueue(what),
        Rule::AfterSuspend => is_suspend(what),
        _ => false,
    }
}

/// Whether each name in each expression of the statement is visible in the handler.
fn sees_deed(scope: &Scope, what: &Do) -> bool
    ensures { result ≡ list_all (all_seen (visible (scope_of scope.now))) (exprs_at (deed_of what.now)) }
{
    match what {
        Do::Assign(_, e) => sees_expr(scope, e),
        Do::If(e, _, _) => sees_expr(scope, e),
        Do::Send(e, _, args) => sees_expr(scope, e) && sees_all(scope, args.items()),
        Do::SendAll(e, _, args) => sees_expr(scope, e) && sees_all(scope, args.items()),
        Do::SetState(_, args) => sees_all(scope, args.items()),
        Do::Suspend(_, _, args, _) => sees_all(scope, args.items()),
        Do::ForEach(_, e, _) => sees_expr(scope, e),
        _ => true,
    }
}

/// Whether so many arguments are declared for the message of the name, if there is one.
pub fn is_message_count(protocol: &Protocol, name: &Name, count: usize) -> bool
    ensures { result ≡ is_message_count (message_of protocol.now name.now) count }
{
    match message_of(protocol, name) {
        Some(m) => count == m.args.len(),
        None => true,
    }
}

fn is_state_count(protocol: &Protocol, name: &Name, count: usize) -> bool
    ensures { result ≡ is_state_count (state_of protocol.now name.now) count }
{
    match state_of(protocol, name) {
        Some(s) => count == s.params.len(),
        None => true,
    }
}

fn has_cont(protocol: &Protocol, name: &Name) -> bool
    ensures { result ≡ has_cont (state_of protocol.now name.now) }
{
    match state_of(protocol, name) {
        Some(s) => s.cont.is_some(),
        None => false,
    }
}

fn lacks_cont(protocol: &Protocol, name: &Name) -> bool
    ensures { result ≡ lacks_cont (state_of protocol.now name.now) }
{
    match state_of(protocol, name) {
        Some(s) => s.cont.is_none(),
        None => false,
    }
}

pub fn is_counted(scope: &Scope, what: &Do) -> bool
    ensures { result ≡ is_counted (scope_of scope.now) (deed_of what.now) }
{
    match what {
        Do::Send(_, name, args) => is_message_count(scope.protocol, name, args.len()),
        Do::SendAll(_, name, args) => is_message_count(scope.protocol, name, args.len()),
        Do::SetState(name, args) => {
            is_state_count(scope.protocol, name, args.len())
                && (scope.state.cont.is_some() || !has_cont(scope.protocol, name))
        }
        Do::Suspend(_, name, args, _) => {
            is_state_count(scope.protocol, name, args.len()) && !lacks_cont(scope.protocol, name)
        }
        _ => true,
    }
}

pub fn drops_cont(scope: &Scope, what: &Do) -> bool
    ensures { result ≡ drops_cont (scope_of scope.now) (deed_of what.now) }
{
    match what {
        Do::SetState(name, _) => scope.state.cont.is_some() && lacks_cont(scope.protocol, name),
        _ => false,
    }
}

/// Whether the name is that of the continuation.
pub fn is_cont(cont: &Option<Name>, name: &Name) -> bool
    ensures { result ≡ is_cont cont.now name.now }
{
    match cont {
        None => false,
        Some(cont) => cont.is(name.bytes()),
    }
}

pub fn resumes_foreign(scope: &Scope, what: &Do) -> bool
    ensures { result ≡ resumes_foreign (scope_of scope.now) (deed_of what.now) }
{
    match what {
        Do::Resume(name) => !is_cont(&scope.state.cont, name),
        _ => false,
    }
}

/// Whether the message that the handler is for carries the words of its block.
fn carries(scope: &Scope) -> bool
    ensures { result ≡ carries (taken_message scope.now.protocol.now scope.now.handler.now.on) }
{
    match taken_message(scope.protocol, &scope.handler.on) {
        None => false,
        Some(m) => m.carries,
    }
}

pub fn lacks_data(scope: &Scope, what: &Do) -> bool
    ensures { result ≡ lacks_data (scope_of scope.now) (deed_of what.now) }
{
    match what {
        Do::Install => !carries(scope),
        _ => false,
    }
}

#[tactic(auto, using(crate::proofs::Seeing::all_exprs_seen))]
pub fn uses_undeclared(scope: &Scope, what: &Do) -> bool
    ensures { result ≡ uses_undeclared (scope_of scope.now) (deed_of what.now) }
{
    !(is_declared(scope, what) && sees_deed(scope, what))
}
