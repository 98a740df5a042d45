ghost use Rattle.std.specs.Prelude.{◌≡◌, ◌≤◌, ◌∷◌, ◌++◌, IfOk, length, map, nat_le, position, unwrap_or};
ghost use Rattle.std.specs.Str.{bytes_eq};
ghost use Rattle.teapot_tree.specs.declared.stmt.Do.{out-Do};
ghost use Rattle.teapot_meaning.specs.declared.state.StateVal.{out-StateVal};
ghost use Rattle.teapot_meaning.specs.Depth.{depth};
ghost use Rattle.teapot_meaning.specs.Names.{declared, error_number};
ghost use Rattle.teapot_tree.specs.Scopes.{message_number, state_number};
ghost use Rattle.teapot_meaning.specs.Values.{value_of};
ghost use Rattle.teapot_meaning.specs.Steps.{assigned, assigned_info, branch, deferred, each, ended, installed, least_of};
ghost use Rattle.teapot_meaning.specs.Steps.{led_to, moved, out_to, resumes, sent, sent_all, set_of, suspends, tagged, turns};
ghost use Rattle.teapot_meaning.specs.Steps.{values_of, woken};

use sqlite_items::Boxed;
use std::alloc::{AllocError, Global};
use teapot_meaning::{
    Bound, Cont, Ended, ErrorNames, Kept, Next, Out, Running, StateVal, eval, free, info_place,
    least_of, message_number, node, nodes_in, payload, set_of, state_number,
};
use teapot_tree::{Do, Expr, Protocol, Stmt, copy_stmts};
use tw_base::{Data, End, Kind, Listed, Memory, Name, NodeId, NodeSet, Stack, Tag, Value};

/// What a statement leads to, with the statements that follow it.
pub fn step(
    alloc: Global,
    p: &Protocol,
    what: Do,
    rest: Stack<Stmt>,
    r: Running,
) -> Result<Next, Memory>
    requires messages { length p.now.messages ≤ 64 }
    requires states { length p.now.states ≤ 64 }
    ensures { IfOk result (λ next. next ≡ led_to p.now (out-Do what) rest r) }
{
    match what {
        Do::Assign(name, e) => Ok(after_assign(p, rest, r, name, e)),
        Do::If(e, first, second) => after_if(alloc, p, rest, r, e, first, second),
        Do::Send(to, name, args) => after_send(alloc, p, rest, r, to, name, args),
        Do::SendAll(to, name, args) => after_send_all(alloc, p, rest, r, to, name, args),
        Do::SetTag(tag) => Ok(after_set_tag(rest, r, tag)),
        Do::SetState(name, args) => after_set_state(alloc, p, rest, r, name, args),
        Do::Suspend(_, name, args, _) => after_suspend(alloc, p, rest, r, name, args),
        Do::Resume(_) => Ok(resume(r)),
        Do::Install => Ok(after_install(rest, r)),
        Do::Enqueue => Ok(after_enqueue(rest, r)),
        Do::WakeUp => Ok(after_wake_up(rest, r)),
        Do::Error(name) => after_error(alloc, p, r, name),
        Do::ForEach(x, e, body) => after_for_each(p, rest, r, x, e, body),
        Do::Each(x, set, body) => turn(alloc, p, r, x, set, body, rest),
    }
}

fn after_assign(p: &Protocol, rest: Stack<Stmt>, r: Running, name: Name, e: Expr) -> Next
    ensures { result ≡ Next.On rest (assigned p.now r name (value_of p.now r e)) }
{
    let value = eval(p, &r, &e);
    Next::On(rest, assign(p, r, name, value))
}

fn after_if(
    alloc: Global,
    p: &Protocol,
    rest: Stack<Stmt>,
    r: Running,
    e: Expr,
    first: Listed<Stmt>,
    second: Option<Listed<Stmt>>,
) -> Result<Next, Memory>
    ensures { IfOk result (λ next. next ≡ Next.On (branch (value_of p.now r e) first second ++ rest) r) }
{
    let value = eval(p, &r, &e);
    let stmts = choose(alloc, value, first, second);
    Ok(Next::On(put_before(stmts, rest)?, r))
}

fn after_send(
    alloc: Global,
    p: &Protocol,
    rest: Stack<Stmt>,
    r: Running,
    to: Expr,
    name: Name,
    args: Listed<Expr>,
) -> Result<Next, Memory>
    requires { length p.now.messages ≤ 64 }
    ensures { let number = declared (message_number p.now name)
        in IfOk result (λ next. next ≡ Next.On rest (sent p.now r (value_of p.now r to) number (values_of p.now r args))) }
{
    let to = eval(p, &r, &to);
    let number = message_number(p, name.bytes());
    let args = eval_all(alloc, p, &r, args.items())?;
    Ok(Next::On(rest, send(p, r, to, number, args)?))
}

fn after_send_all(
    alloc: Global,
    p: &Protocol,
    rest: Stack<Stmt>,
    r: Running,
    to: Expr,
    name: Name,
    args: Listed<Expr>,
) -> Result<Next, Memory>
    requires { length p.now.messages ≤ 64 }
    ensures { let number = declared (message_number p.now name)
        in IfOk result (λ next. next ≡ Next.On rest (sent_all p.now r (value_of p.now r to) number (values_of p.now r args))) }
{
    let to = eval(p, &r, &to);
    let number = message_number(p, name.bytes());
    let args = eval_all(alloc, p, &r, args.items())?;
    Ok(Next::On(rest, send_all(alloc, p, r, to, number, args)?))
}

fn after_set_tag(rest: Stack<Stmt>, r: Running, tag: Tag) -> Next
    ensures { result ≡ Next.On rest (tagged r tag) }
{
    Next::On(rest, set_tag(r, tag))
}

fn after_set_state(
    alloc: Global,
    p: &Protocol,
    rest: Stack<Stmt>,
    r: Running,
    name: Name,
    args: Listed<Expr>,
) -> Result<Next, Memory>
    requires { length p.now.states ≤ 64 }
    ensures { IfOk result (λ next. next ≡ Next.On rest (moved r (declared (state_number p.now name)) (values_of p.now r args))) }
{
    let number = state_number(p, name.bytes());
    let args = eval_all(alloc, p, &r, args.items())?;
    Ok(Next::On(rest, go_to(r, number, args)))
}

fn after_suspend(
    alloc: Global,
    p: &Protocol,
    rest: Stack<Stmt>,
    r: Running,
    name: Name,
    args: Listed<Expr>,
) -> Result<Next, Memory>
    requires { length p.now.states ≤ 64 }
    ensures { IfOk result (λ next. next ≡ suspends r (declared (state_number p.now name)) (values_of p.now r args) rest) }
{
    let number = state_number(p, name.bytes());
    let args = eval_all(alloc, p, &r, args.items())?;
    suspend(alloc, r, number, args, rest)
}

fn after_install(rest: Stack<Stmt>, r: Running) -> Next
    ensures { result ≡ Next.On rest (installed r (unwrap_or r.came r.here.words)) }
{
    let words = words_left(&r);
    Next::On(rest, set_words(r, words))
}

fn after_enqueue(rest: Stack<Stmt>, mut r: Running) -> Next
    ensures { result ≡ Next.On rest (deferred r) }
{
    r.kept = Kept::Stale;
    Next::On(rest, r)
}

fn after_wake_up(rest: Stack<Stmt>, mut r: Running) -> Next
    ensures { result ≡ Next.On rest (woken r) }
{
    r.woke = true;
    Next::On(rest, r)
}

fn after_error(alloc: Global, p: &Protocol, r: Running, name: Name) -> Result<Next, Memory>
    ensures { IfOk result (λ next. next ≡ Next.Over (ended r (End.Failed (error_number p.now name)))) }
{
    let number = error_number(alloc, p, name.bytes())?;
    Ok(Next::Over(over(r, End::Failed(number))))
}

fn after_for_each(
    p: &Protocol,
    mut rest: Stack<Stmt>,
    r: Running,
    x: Name,
    e: Expr,
    body: Listed<Stmt>,
) -> Result<Next, Memory>
    ensures { IfOk result (λ next. next ≡ Next.On (each x (set_of (value_of p.now r e)) body ∷ rest) r) }
{
    let set = set_of(eval(p, &r, &e));
    rest.push(each(x, set, body))?;
    Ok(Next::On(rest, r))
}

/// The end of a handler.
#[tactic(auto, unfolding(teapot_meaning::specs::Steps::ended))]
pub fn over(r: Running, end: End) -> Ended
    ensures { result ≡ ended r end }
{
    let Running {
        here,
        vars: _,
        came: _,
        sends,
        kept,
        freed,
        woke,
    } = r;
    Ended {
        here,
        sends,
        kept,
        freed,
        woke,
        end,
    }
}

fn eval_all(alloc: Global, p: &Protocol, r: &Running, es: &[Expr]) -> Result<Listed<Value>, Memory>
    ensures { IfOk result (λ values. values ≡ values_of p.now r.now es.now) }
{
    let values = eval_each(alloc, p, r, es)?;
    Ok(Listed::of(values))
}

fn eval_each(
    alloc: Global,
    p: &Protocol,
    r: &Running,
    es: &[Expr],
) -> Result<Vec<Value>, AllocError>
    ensures { IfOk result (λ values. values.items ≡ values_of p.now r.now es.now) }
{
    es.iter().map(|e| eval(p, r, e)).collect(alloc)
}

#[tactic(auto, unfolding(teapot_meaning::specs::Steps::assigned))]
fn assign(p: &Protocol, mut r: Running, name: Name, value: Value) -> Running
    ensures { result ≡ assigned p.now r name value }
{
    match place(r.vars.items(), name.bytes()) {
        Some(at) => {
            r.vars.set(at, Bound { name, value });
            r
        }
        None => {
            let info = info_place(p, name.bytes());
            assign_info(r, info, value)
        }
    }
}

#[tactic(auto, using(std::proofs::lemmas::List::set_past))]
fn assign_info(mut r: Running, info: Option<usize>, value: Value) -> Running
    ensures { result ≡ assigned_info r value info }
{
    if let Some(at) = info
        && at < r.here.infos.len()
    {
        r.here.infos.set(at, value);
    }
    r
}

fn place(vars: &[Bound], name: &[u8]) -> Option<usize>
    ensures { result ≡ position (λ b. bytes_eq b.name name.now) vars.now }
{
    vars.iter().position(|b| b.name.is(name))
}

#[tactic(auto, unfolding(teapot_meaning::specs::Steps::branch))]
fn choose(
    alloc: Global,
    value: Value,
    first: Listed<Stmt>,
    second: Option<Listed<Stmt>>,
) -> Listed<Stmt>
    ensures { result ≡ branch value first second }
{
    if let Value::Bool(true) = value {
        return first;
    }
    match second {
        Some(stmts) => stmts,
        None => Listed::new(alloc),
    }
}

#[tactic(auto, unfolding(teapot_meaning::specs::Steps::sent))]
fn send(
    p: &Protocol,
    mut r: Running,
    to: Value,
    number: u8,
    args: Listed<Value>,
) -> Result<Running, Memory>
    ensures { IfOk result (λ after. after ≡ sent p.now r to number args) }
{
    let payload = payload(p, number, &r.here.words);
    r.sends.push(Out {
        to: node(to),
        kind: Kind::Named(number),
        args,
        payload,
    })?;
    Ok(r)
}

#[tactic(auto, unfolding(teapot_meaning::specs::Steps::sent_all))]
fn send_all(
    alloc: Global,
    p: &Protocol,
    mut r: Running,
    to: Value,
    number: u8,
    args: Listed<Value>,
) -> Result<Running, Memory>
    ensures { IfOk result (λ after. after ≡ sent_all p.now r to number args) }
{
    let payload = payload(p, number, &r.here.words);
    let nodes = nodes_in(alloc, set_of(to))?;
    r.sends
        .append(outs(alloc, nodes.items(), number, args.items(), payload)?)?;
    Ok(r)
}

fn outs(
    alloc: Global,
    nodes: &[NodeId],
    number: u8,
    args: &[Value],
    payload: Option<Data>,
) -> Result<Listed<Out>, Memory>
    ensures { IfOk result (λ outs. outs ≡ map (out_to number args.now payload) nodes.now) }
{
    let mut outs = Listed::new(alloc);
    for node in nodes {
        outs.push(Out {
            to: *node,
            kind: Kind::Named(number),
            args: Listed::from_slice(alloc, args)?,
            payload,
        })?;
    }
    Ok(outs)
}

fn error_number(alloc: Global, p: &Protocol, name: &[u8]) -> Result<u32, Memory>
    ensures { IfOk result (λ number. number ≡ error_number p.now name.now) }
{
    let names = ErrorNames::of(alloc, p)?;
    Ok(names.number(name))
}

/// A loop on its way.
fn each(x: Name, set: NodeSet, body: Listed<Stmt>) -> Stmt
    ensures { result ≡ each x set body }
{
    Stmt {
        what: Do::Each(x, set, body),
        line: 0,
    }
}

/// The statements, and then those of the rest.
fn put_before(stmts: Listed<Stmt>, rest: Stack<Stmt>) -> Result<Stack<Stmt>, Memory>
    ensures { IfOk result (λ all. all ≡ stmts ++ rest) }
{
    let mut left = stmts;
    let mut all = rest;
    'stmts: while let Some(last) = left.pop() {
        all.push(last)?;
    }
    Ok(all)
}

/// The body for the least node of the set, and the loop again, or what follows it.
#[tactic(auto, unfolding(teapot_meaning::specs::Steps::turns))]
fn turn(
    alloc: Global,
    p: &Protocol,
    r: Running,
    x: Name,
    set: NodeSet,
    body: Listed<Stmt>,
    mut rest: Stack<Stmt>,
) -> Result<Next, Memory>
    ensures { IfOk result (λ next. next ≡ turns p.now x set body rest r) }
{
    match least_of(set) {
        Some(node) => {
            let stmts = copy_stmts(alloc, body.items())?;
            rest.push(each(x.copy(alloc)?, set.without(node), body))?;
            let stmts = put_before(stmts, rest)?;
            Ok(Next::On(stmts, assign(p, r, x, Value::Node(node))))
        }
        None => Ok(Next::On(rest, r)),
    }
}

#[tactic(auto, unfolding(teapot_meaning::specs::Steps::tagged))]
fn set_tag(mut r: Running, tag: Tag) -> Running
    ensures { result ≡ tagged r tag }
{
    r.here.tag = tag;
    r
}

/// The words after an Install.
fn words_left(r: &Running) -> Data
    ensures { result ≡ unwrap_or r.now.came r.now.here.words }
{
    match r.came {
        Some(words) => words,
        None => r.here.words,
    }
}

fn set_words(mut r: Running, words: Data) -> Running
    ensures { result ≡ installed r words }
{
    r.here.words = words;
    r
}

#[tactic(auto, unfolding(teapot_meaning::specs::Steps::moved))]
fn go_to(mut r: Running, state: u8, args: Listed<Value>) -> Running
    ensures { result ≡ moved r state args }
{
    r.freed = true;
    r.kept = free(r.kept);
    r.here.state.state = state;
    r.here.state.args = args;
    r
}

#[tactic(auto, unfolding(teapot_meaning::specs::Depth::depth))]
fn is_deep(v: &StateVal, n: u8) -> bool
    ensures { result ≡ nat_le n (depth v.now) }
{
    if n == 0 {
        return true;
    }
    match &v.cont {
        Some(k) => is_deep(k.get().saved.get(), n - 1),
        None => false,
    }
}

#[tactic(auto, unfolding(teapot_meaning::specs::Steps::suspends, teapot_meaning::specs::Steps::ended))]
fn suspend(
    alloc: Global,
    r: Running,
    number: u8,
    args: Listed<Value>,
    rest: Stack<Stmt>,
) -> Result<Next, Memory>
    ensures { IfOk result (λ next. next ≡ suspends r number args rest) }
{
    if is_deep(&r.here.state, 8) {
        return Ok(Next::Over(over(r, End::TooDeep)));
    }
    let mut here = r.here;
    let saved = Boxed::new(alloc, here.state)?;
    let kept = Cont {
        rest: rest.into_listed(),
        vars: r.vars,
        came: r.came,
        saved,
    };
    here.state = StateVal {
        state: number,
        args,
        cont: Some(Boxed::new(alloc, kept)?),
    };
    Ok(Next::Over(Ended {
        here,
        sends: r.sends,
        kept: r.kept,
        freed: r.freed,
        woke: r.woke,
        end: End::Fine,
    }))
}

#[tactic(auto, unfolding(teapot_meaning::specs::Steps::resumes, teapot_meaning::specs::Steps::ended))]
fn resume(mut r: Running) -> Next
    ensures { result ≡ resumes r (out-StateVal r.here.state).cont }
{
    let mut here = r.here;
    let StateVal { state, args, cont } = here.state;
    match cont {
        Some(cont) => {
            let Cont {
                rest,
                vars,
                came,
                saved,
            } = cont.into_inner();
            here.state = saved.into_inner();
            r.here = here;
            r.vars = vars;
            r.came = came;
            r.kept = free(r.kept);
            r.freed = true;
            Next::On(Stack::of(rest.into_vec()), r)
        }
        None => {
            here.state = StateVal {
                state,
                args,
                cont: None,
            };
            r.here = here;
            Next::Over(over(r, End::Fine))
        }
    }
}
