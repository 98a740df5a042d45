ghost use Rattle.std.specs.Prelude.{◌≡◌, ◌||◌, min};
ghost use Rattle.teapot_tree.specs.Bodies.{body_of};
ghost use Rattle.teapot_rules.specs.Deeds.{comes_first};
ghost use Rattle.teapot_rules.specs.Stmts.{stmt_body};
ghost use Rattle.teapot_rules.specs.Walks.{meets, most};

use crate::steps::comes_first;
use teapot_tree::{Do, Rule, Stmt};

/// Whether what has to come first for the rule to be broken stands somewhere in the statements.
#[cycle(meets)]
pub fn meets(rule: Rule, stmts: &[Stmt]) -> bool
    ensures { result ≡ meets (comes_first rule) (body_of stmts.now) }
{
    for s in stmts {
        if meets_in(rule, s) {
            return true;
        }
    }
    false
}

/// Whether it stands in the statement.
#[cycle(meets)]
pub fn meets_in(rule: Rule, stmt: &Stmt) -> bool
    ensures { result ≡ meets (comes_first rule) (stmt_body stmt.now) }
{
    if comes_first(rule, &stmt.what) {
        return true;
    }
    match &stmt.what {
        Do::If(_, first, second) => match second {
            None => meets(rule, first.items()),
            Some(second) => meets(rule, first.items()) | meets(rule, second.items()),
        },
        Do::ForEach(_, _, body) => meets(rule, body.items()),
        _ => false,
    }
}

fn capped(count: u32) -> u32
    ensures { result ≡ min 33 count }
{
    if count < 33 { count } else { 33 }
}

/// How many messages a path through the statements sends at most, and 33 where it may be more.
#[cycle(most)]
pub fn most(stmts: &[Stmt]) -> u32
    ensures { result ≡ min 33 (most (body_of stmts.now)) }
{
    let mut sum = 0;
    for s in stmts {
        sum = capped(sum + most_in(s));
    }
    sum
}

#[cycle(most)]
fn most_in(stmt: &Stmt) -> u32
    ensures { result ≡ min 33 (most (stmt_body stmt.now)) }
{
    match &stmt.what {
        Do::Send(_, _, _) => 1,
        Do::SendAll(_, _, _) => 8,
        Do::If(_, first, second) => match second {
            None => most(first.items()),
            Some(second) => most(first.items()).max(most(second.items())),
        },
        Do::ForEach(_, _, body) => 33.min(8 * most(body.items())),
        _ => 0,
    }
}
