ghost use Rattle.std.specs.Prelude.{◌≡◌, ◌↔◌, [], ◌∷◌, IfOk, IsSome, IsTrue, codes, find, is_some, map, slice_get};
ghost use Rattle.std.specs.List.{list_all};
ghost use Rattle.std.specs.Option.{option_copied};
ghost use Rattle.teapot_meaning.specs.Does.{Does, bound, local_of, started, state_of, vars_of};
ghost use Rattle.teapot_meaning.specs.Goes.{Goes};
ghost use Rattle.teapot_meaning.specs.Handlers.{IsServed, answers, default_of, handler_in};
ghost use Rattle.teapot_meaning.specs.Steps.{next_of};
ghost use Rattle.teapot_tree.specs.Rules.{is_default};

use crate::step::{over, step};
use std::alloc::Global;
use teapot_meaning::{Bound, Ended, Here, Kept, Next, Running, message_place, zero};
use teapot_tree::{Checked, Handler, Param, Protocol, State, Stmt, Trigger, copy_stmts};
use tw_base::{End, Kind, Listed, Memory, Message, Name, NodeId, Stack, Value};

/// Handles a message at a block.
///
/// The handler is the one that the block's state has for the message, else its default. Want of memory is the only
/// error. The block's state is to be one of the protocol's, by its number.
pub fn run(alloc: Global, p: &Checked, here: &Here, m: &Message) -> Result<Ended, Memory>
    requires { IsSome (state_of p.now here.now) }
    ensures { IfOk result (λ end. Does p.now here.now m.now end) }
{
    run_in(alloc, p.protocol(), here, m)
}

/// The same over a tree that need not keep every rule: a byte counts its messages and states, and each state has a
/// default.
pub fn run_in(alloc: Global, p: &Protocol, here: &Here, m: &Message) -> Result<Ended, Memory>
    requires served { IsServed p.now }
    requires state { IsSome (state_of p.now here.now) }
    ensures { IfOk result (λ end. Does p.now here.now m.now end) }
{
    match p.states.get(usize::from(here.state.state)) {
        Some(state) => match handler(p, state, m.kind) {
            Some(handler) => handle(alloc, p, state, handler, here, m),
            None => unreachable!(),
        },
        None => unreachable!(),
    }
}

/// Whether a tree has what `run_in` asks of it.
pub fn is_served(p: &Protocol) -> bool
    ensures { IsTrue result ↔ IsServed p.now }
{
    p.messages.len() <= 64 && p.states.len() <= 64 && have_defaults(p.states.items())
}

fn have_defaults(states: &[State]) -> bool
    ensures { result ≡ list_all (λ s. is_some (default_of s)) states.now }
{
    states.iter().all(|state| has_default(state))
}

fn has_default(state: &State) -> bool
    ensures { result ≡ is_some (default_of state.now) }
{
    default_handler(state).is_some()
}

fn handle(
    alloc: Global,
    p: &Protocol,
    state: &State,
    handler: &Handler,
    here: &Here,
    m: &Message,
) -> Result<Ended, Memory>
    requires { IsServed p.now }
    ensures { IfOk result (λ end. Goes p.now handler.now.body (started state.now handler.now here.now m.now) end) }
{
    let body = copy_stmts(alloc, handler.body.items())?;
    let running = start(alloc, state, handler, here, m)?;
    go(alloc, p, Stack::of(body.into_vec()), running)
}

fn start(
    alloc: Global,
    state: &State,
    handler: &Handler,
    here: &Here,
    m: &Message,
) -> Result<Running, Memory>
    ensures { IfOk result (λ r. r ≡ started state.now handler.now here.now m.now) }
{
    let vars = vars(alloc, state, handler, here, m)?;
    let here = here.copy(alloc)?;
    Ok(Running {
        here,
        vars,
        came: m.payload,
        sends: Listed::new(alloc),
        kept: Kept::No,
        freed: false,
        woke: false,
    })
}

#[tactic(auto, unfolding(teapot_meaning::specs::Does::vars_of))]
fn vars(
    alloc: Global,
    state: &State,
    handler: &Handler,
    here: &Here,
    m: &Message,
) -> Result<Listed<Bound>, Memory>
    ensures { IfOk result (λ vars. vars ≡ vars_of state.now handler.now here.now m.now) }
{
    let mut vars = source(alloc, m.from)?;
    let params = names_of(alloc, state.params.items())?;
    vars.append(bind(alloc, params.items(), here.state.args.items())?)?;
    vars.append(bind(
        alloc,
        handler.args.items(),
        &m.args[..usize::from(m.arg_count)],
    )?)?;
    vars.append(locals(alloc, handler.locals.items())?)?;
    Ok(vars)
}

fn source(alloc: Global, from: NodeId) -> Result<Listed<Bound>, Memory>
    ensures { IfOk result (λ vars. vars ≡ record { name = codes "src"; value = Value.Node from } ∷ []) }
{
    let mut vars = Listed::new(alloc);
    vars.push(Bound {
        name: Name::new(alloc, b"src")?,
        value: Value::Node(from),
    })?;
    Ok(vars)
}

fn bind(alloc: Global, names: &[Name], values: &[Value]) -> Result<Listed<Bound>, Memory>
    ensures { IfOk result (λ vars. vars ≡ bound names.now values.now) }
{
    let mut vars = Listed::new(alloc);
    'pairs: for (at, name) in names.iter().enumerate() {
        match value_at(values, at) {
            Some(value) => vars.push(Bound {
                name: name.copy(alloc)?,
                value,
            })?,
            None => return Ok(vars),
        }
    }
    Ok(vars)
}

fn value_at(values: &[Value], at: usize) -> Option<Value>
    ensures { result ≡ slice_get values.now at }
{
    values.get(at).copied()
}

fn names_of(alloc: Global, params: &[Param]) -> Result<Listed<Name>, Memory>
    ensures { IfOk result (λ names. names ≡ map (λ a. a.name) params.now) }
{
    let mut names = Listed::new(alloc);
    for param in params {
        names.push(param.name.copy(alloc)?)?;
    }
    Ok(names)
}

fn locals(alloc: Global, params: &[Param]) -> Result<Listed<Bound>, Memory>
    ensures { IfOk result (λ vars. vars ≡ map local_of params.now) }
{
    let mut vars = Listed::new(alloc);
    for param in params {
        vars.push(Bound {
            name: param.name.copy(alloc)?,
            value: zero(param.ty),
        })?;
    }
    Ok(vars)
}

#[tactic(auto, unfolding(teapot_meaning::specs::Handlers::handler_in))]
fn handler<'a>(p: &Protocol, state: &'a State, kind: Kind) -> Option<&'a Handler>
    ensures { option_copied result ≡ handler_in p.now kind state.now }
{
    match own(p, state, kind) {
        Some(handler) => Some(handler),
        None => default_handler(state),
    }
}

fn own<'a>(p: &Protocol, state: &'a State, kind: Kind) -> Option<&'a Handler>
    ensures { option_copied result ≡ find (λ h. answers p.now kind h.on) state.now.handlers }
{
    state
        .handlers
        .items()
        .iter()
        .find(|h| does_answer(p, kind, &h.on))
}

fn default_handler(state: &State) -> Option<&Handler>
    ensures { option_copied result ≡ default_of state.now }
{
    state.handlers.items().iter().find(|h| is_default(&h.on))
}

fn is_default(on: &Trigger) -> bool
    ensures { result ≡ is_default on.now }
{
    matches!(on, Trigger::Default)
}

fn does_answer(p: &Protocol, kind: Kind, on: &Trigger) -> bool
    ensures { result ≡ answers p.now kind on.now }
{
    match (kind, on) {
        (Kind::RdFault, Trigger::RdFault) => true,
        (Kind::WrFault, Trigger::WrFault) => true,
        (Kind::Named(number), Trigger::Named(name)) => {
            message_place(p, name.bytes()) == Some(usize::from(number))
        }
        _ => false,
    }
}

/// Runs the statements to their end, the top one first.
fn go(alloc: Global, p: &Protocol, mut stmts: Stack<Stmt>, mut r: Running) -> Result<Ended, Memory>
    requires { IsServed p.now }
    ensures { IfOk result (λ end. Goes p.now stmts r end) }
{
    'steps: loop {
        match advance(alloc, p, stmts, r)? {
            Next::On(rest, after) => {
                stmts = rest;
                r = after;
            }
            Next::Over(end) => return Ok(end),
        }
    }
}

fn advance(alloc: Global, p: &Protocol, mut stmts: Stack<Stmt>, r: Running) -> Result<Next, Memory>
    requires { IsServed p.now }
    ensures { IfOk result (λ next. next ≡ next_of p.now stmts r) }
{
    match stmts.pop() {
        Some(first) => step(alloc, p, first.what, stmts, r),
        None => Ok(Next::Over(over(r, End::Fine))),
    }
}
