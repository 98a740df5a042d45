ghost use Rattle.std.specs.Prelude.{◌≡◌, ◌↔◌, IsTrue, [], None};
ghost use Rattle.teapot_meaning.specs.Bare.{bare_cont, bare_val};
ghost use Rattle.teapot_meaning.specs.declared.state.StateVal.{out-StateVal};
ghost use Rattle.teapot_meaning.specs.declared.state.Cont.{out-Cont};
ghost use Rattle.stache_table.specs.Blocks.{reads, rest_from, sender_in, src};
ghost use Rattle.stache_table.specs.Runs.{alone};
ghost use Rattle.stache_d_table.specs.Blocks as table_d;
ghost use Rattle.stache_l_table.specs.Blocks.{second_in, src_and};
ghost use Rattle.teapot_tree.specs.declared.expr.Expr.{out-Expr};
ghost use Rattle.block_reads.specs.Tables.{reads_under, vars_of_l, vars_under};
ghost use Rattle.block_reads.specs.Whose.{rest_in, saved_at, state_in};

use crate::is_rest;
use sqlite_items::Boxed;
use stache_check::{Directory, Place};
use teapot_meaning::{Bound, Cont, StateVal};
use teapot_tree::{Do, Expr, Stmt};
use tw_base::{Data, NodeId, Value};

/// Which continuation a block has, and whose request it serves.
#[derive(Clone, Copy)]
pub enum Whose {
    NoRest,
    OfHome,
    /// The home's own load, where its store leaves another continuation.
    OfLoad,
    OfRo(NodeId),
    OfRw(NodeId),
    OfCache,
}

fn sender(vars: &[Bound]) -> NodeId
    ensures { result ≡ sender_in vars.now }
{
    if let [first, ..] = vars {
        if let Value::Node(node) = first.value {
            return node;
        }
    }
    NodeId::new(0).unwrap()
}

fn whose_rest(rest: &[Stmt], node: NodeId) -> Whose
    ensures { rest_in result ≡ rest_from rest.now node }
{
    match rest {
        [first, ..] => match &first.what {
            Do::SetTag(_) => Whose::OfHome,
            Do::Assign(name, _) => {
                if name.is(b"owner") {
                    Whose::OfRw(node)
                } else {
                    Whose::OfRo(node)
                }
            }
            Do::WakeUp => Whose::OfCache,
            _ => Whose::NoRest,
        },
        [] => Whose::NoRest,
    }
}

/// What a continuation of Stache serves.
pub fn rest_read(cont: &Option<Boxed<Cont>>) -> Whose
    ensures { rest_in result ≡ reads cont.now }
{
    match cont {
        None => Whose::NoRest,
        Some(k) => {
            let k = k.get();
            whose_rest(k.rest.items(), sender(k.vars.items()))
        }
    }
}

/// Whose read it is that leaves this set of sharers: the home's own leaves the owner alone.
fn reader(sharers: &Expr, node: NodeId) -> Whose
    ensures { rest_in result ≡ table_d.reader_in (out-Expr sharers.now) node }
{
    match sharers {
        Expr::One(_) => Whose::OfLoad,
        _ => Whose::OfRo(node),
    }
}

fn whose_rest_d(rest: &[Stmt], node: NodeId) -> Whose
    ensures { rest_in result ≡ table_d.rest_from rest.now node }
{
    match rest {
        [first, ..] => match &first.what {
            Do::SetTag(_) => Whose::OfHome,
            Do::Assign(name, e) => {
                if name.is(b"owner") {
                    Whose::OfRw(node)
                } else {
                    reader(e, node)
                }
            }
            Do::WakeUp => Whose::OfCache,
            _ => Whose::NoRest,
        },
        [] => Whose::NoRest,
    }
}

/// What a continuation of Stache_D serves.
fn rest_read_d(cont: &Option<Boxed<Cont>>) -> Whose
    ensures { rest_in result ≡ table_d.reads cont.now }
{
    match cont {
        None => Whose::NoRest,
        Some(k) => {
            let k = k.get();
            whose_rest_d(k.rest.items(), sender(k.vars.items()))
        }
    }
}

/// Whose request a continuation of this protocol serves.
pub fn rest_under(directory: Directory, cont: &Option<Boxed<Cont>>) -> Whose
    ensures { rest_in result ≡ reads_under directory cont.now }
{
    match directory {
        Directory::Stache => rest_read(cont),
        Directory::StacheD => rest_read_d(cont),
        Directory::StacheL => rest_read(cont),
    }
}

fn is_src(vars: &[Bound], node: NodeId) -> bool
    ensures { IsTrue result ↔ (vars.now ≡ src node) }
{
    match vars {
        [only] => only.name.is(b"src") && only.value == Value::Node(node),
        _ => false,
    }
}

/// Whether they are a sender, this one, and a node that was chosen.
fn is_src_and(vars: &[Bound], node: NodeId) -> bool
    ensures { IsTrue result ↔ (vars.now ≡ src_and node (second_in vars.now)) }
{
    match vars {
        [first, second] => {
            first.name.is(b"src")
                && first.value == Value::Node(node)
                && second.name.is(b"x")
                && matches!(second.value, Value::Node(_))
        }
        _ => false,
    }
}

/// Whether they are the variables that a state and continuation of Stache_L have.
fn are_vars_of_l(vars: &[Bound], place: Place, whose: &Whose, node: NodeId) -> bool
    ensures { IsTrue result ↔ (vars.now ≡ vars_of_l (state_in place) (rest_in whose.now) node (second_in vars.now)) }
{
    match (place, whose) {
        (Place::HomeAcks, Whose::OfRo(_)) => is_src_and(vars, node),
        _ => is_src(vars, node),
    }
}

fn are_vars(vars: &[Bound], directory: Directory, place: Place, whose: &Whose, node: NodeId) -> bool
    ensures { IsTrue result ↔ (vars.now ≡ vars_under directory (state_in place) (rest_in whose.now) node (second_in vars.now)) }
{
    match directory {
        Directory::Stache => is_src(vars, node),
        Directory::StacheD => is_src(vars, node),
        Directory::StacheL => are_vars_of_l(vars, place, whose, node),
    }
}

fn has_none(cont: &Option<Boxed<Cont>>) -> bool
    ensures { IsTrue result ↔ (cont.now ≡ None) }
{
    match cont {
        None => true,
        Some(_) => false,
    }
}

fn has_no_data(came: &Option<Data>) -> bool
    ensures { IsTrue result ↔ (came.now ≡ None) }
{
    match came {
        None => true,
        Some(_) => false,
    }
}

#[tactic(auto, using(crate::proofs::Layers::parts))]
fn is_alone(s: &StateVal) -> bool
    ensures { IsTrue result ↔ (bare_val s.now ≡ alone (out-StateVal s.now).state) }
{
    if !s.args.is_empty() {
        return false;
    }
    has_none(&s.cont)
}

/// Whether it is what this place's handler saves for the node that it serves.
#[tactic(auto, using(crate::proofs::Layers::parts))]
pub fn is_serving(k: &Cont, directory: Directory, place: Place, whose: Whose, node: NodeId) -> bool
    ensures { IsTrue result ↔ (bare_cont k.now ≡ saved_at directory (state_in place) (rest_in whose) node k.now) }
{
    let saved = k.saved.get();
    if !are_vars(k.vars.items(), directory, place, &whose, node) {
        return false;
    }
    if !is_rest(directory, k.rest.items(), place, whose) {
        return false;
    }
    has_no_data(&k.came) && is_alone(saved)
}
