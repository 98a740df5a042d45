ghost use Rattle.std.specs.Prelude.{◌≡◌};
ghost use Rattle.teapot_tree.specs.Bodies.{body_of};
ghost use Rattle.teapot_rules.specs.Deeds.{scope_of, deed_of, comes_first, breaks_at};
ghost use Rattle.teapot_rules.specs.Faults.{body_lines};
ghost use Rattle.teapot_rules.specs.Lists.{least};
ghost use Rattle.teapot_rules.specs.Stmts.{stmt_body};
ghost use Rattle.teapot_rules.specs.Walks.{walk};

use crate::fits::is_typed;
use crate::sight::Sight;
use teapot_rules::{
    comes_first, drops_cont, is_counted, is_late, is_resume, lacks_data, line_if, meets, meets_in,
    resumes_foreign, uses_undeclared,
};
use teapot_tree::{Do, Rule, Stmt};
use tw_base::lesser;

/// Whether the statement breaks the rule, where it is known whether what has to come first did, and whether a
/// statement follows.
fn breaks_at(sight: &Sight, rule: Rule, had: bool, more: bool, what: &Do) -> bool
    ensures { result ≡ breaks_at (scope_of sight.now.scope) rule had more (deed_of what.now) }
{
    match rule {
        Rule::Undeclared => uses_undeclared(&sight.scope, what),
        Rule::Twice => had && comes_first(rule, what),
        Rule::WrongType => !is_typed(sight, what),
        Rule::ArgCount => !is_counted(&sight.scope, what),
        Rule::ContDropped => drops_cont(&sight.scope, what),
        Rule::ResumeNotLast => is_resume(what) && more,
        Rule::ResumeForeign => resumes_foreign(&sight.scope, what),
        Rule::AfterSuspend => had && is_late(sight.scope.protocol.profile, what),
        Rule::NoData => lacks_data(&sight.scope, what),
        _ => false,
    }
}

/// The least line at which a statement breaks the rule, where it is known whether what has to come first came before
/// the statements, and whether a statement follows them.
#[cycle(walk)]
fn walk(sight: &Sight, rule: Rule, stmts: &[Stmt], had: bool, more: bool) -> Option<u32>
    ensures { result ≡ least (walk (comes_first rule) (breaks_at (scope_of sight.now.scope) rule) (body_of stmts.now) had more) }
{
    let mut least = None;
    let mut came = had;
    for (at, s) in stmts.iter().enumerate() {
        let follows = at + 1 < stmts.len();
        least = lesser(least, walk_in(sight, rule, s, came, follows | more));
        came |= meets_in(rule, s);
    }
    least
}

#[cycle(walk)]
fn walk_in(sight: &Sight, rule: Rule, stmt: &Stmt, had: bool, more: bool) -> Option<u32>
    ensures { result ≡ least (walk (comes_first rule) (breaks_at (scope_of sight.now.scope) rule) (stmt_body stmt.now) had more) }
{
    let own = line_if(breaks_at(sight, rule, had, more, &stmt.what), stmt.line);
    let came = had | comes_first(rule, &stmt.what);
    match &stmt.what {
        Do::If(_, first, second) => {
            let first = walk(sight, rule, first.items(), came, more);
            match second {
                None => lesser(own, first),
                Some(second) => {
                    let second = walk(sight, rule, second.items(), came, more);
                    lesser(own, lesser(first, second))
                }
            }
        }
        Do::ForEach(_, _, body) => {
            let came = came | meets(rule, body.items());
            lesser(own, walk(sight, rule, body.items(), came, true))
        }
        _ => own,
    }
}

/// The least line of a statement of the handler that breaks the rule.
#[tactic(auto, using(teapot_rules::proofs::Ruling::walk_lines))]
pub fn body_line(sight: &Sight, rule: Rule) -> Option<u32>
    ensures { result ≡ least (body_lines rule (scope_of sight.now.scope)) }
{
    walk(sight, rule, sight.scope.handler.body.items(), false, false)
}
