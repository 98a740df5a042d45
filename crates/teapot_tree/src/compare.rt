ghost use Rattle.std.specs.Prelude.{◌≡◌, ◌↔◌, IsTrue, map};
ghost use Rattle.teapot_tree.specs.Bare.{bare, bare_all, bare_do, bare_handler, bare_message, bare_param, bare_protocol};
ghost use Rattle.teapot_tree.specs.Bare.{bare_start, bare_state};

use crate::{
    Do, Expr, Handler, MessageDecl, Param, Protocol, Start, State, Stmt, Trigger, ValType,
};
use tw_base::{Chan, Name, NodeSet};

impl Expr {
    pub fn same(&self, other: &Expr) -> bool
        ensures { IsTrue result ↔ (self.now ≡ other.now) }
    {
        match (self, other) {
            (Expr::Number(a), Expr::Number(b)) => *a == *b,
            (Expr::True, Expr::True) => true,
            (Expr::False, Expr::False) => true,
            (Expr::Empty, Expr::Empty) => true,
            (Expr::Src, Expr::Src) => true,
            (Expr::SelfNode, Expr::SelfNode) => true,
            (Expr::Home, Expr::Home) => true,
            (Expr::Var(a), Expr::Var(b)) => a.is(b.bytes()),
            (Expr::One(a), Expr::One(b)) => a.get().same(b.get()),
            (Expr::Not(a), Expr::Not(b)) => a.get().same(b.get()),
            (Expr::Count(a), Expr::Count(b)) => a.get().same(b.get()),
            (Expr::Two(o, a, b), Expr::Two(p, c, d)) => {
                *o == *p && a.get().same(c.get()) && b.get().same(d.get())
            }
            _ => false,
        }
    }
}

pub fn same_exprs(a: &[Expr], b: &[Expr]) -> bool
    ensures { IsTrue result ↔ (a.now ≡ b.now) }
{
    if a.len() != b.len() {
        return false;
    }
    for (at, e) in a.iter().enumerate() {
        if !e.same(&b[at]) {
            return false;
        }
    }
    true
}

fn same_loop(a: &Name, e: &Expr, b: &Name, f: &Expr) -> bool
    ensures { IsTrue result ↔ ((a.now ≡ b.now) × (e.now ≡ f.now)) }
{
    a.is(b.bytes()) && e.same(f)
}

fn same_each(a: &Name, s: NodeSet, b: &Name, t: NodeSet) -> bool
    ensures { IsTrue result ↔ ((a.now ≡ b.now) × (s ≡ t)) }
{
    a.is(b.bytes()) && s == t
}

impl Stmt {
    /// Whether they differ in line numbers alone.
    #[tactic(auto, unfolding(crate::specs::Bare::bare_do, crate::specs::Bare::bare))]
    #[cycle(same)]
    pub fn same(&self, other: &Stmt) -> bool
        ensures { IsTrue result ↔ (bare self.now ≡ bare other.now) }
    {
        self.what.same(&other.what)
    }
}

impl Do {
    #[tactic(auto, unfolding(crate::specs::Bare::bare_do, crate::specs::Bare::bare))]
    #[cycle(same)]
    fn same(&self, other: &Do) -> bool
        ensures { IsTrue result ↔ (bare_do self.now ≡ bare_do other.now) }
    {
        match (self, other) {
            (Do::Assign(a, e), Do::Assign(b, f)) => a.is(b.bytes()) && e.same(f),
            (Do::If(e, x, u), Do::If(f, y, v)) => {
                if !e.same(f) || !same_stmts(x.items(), y.items()) {
                    return false;
                }
                match u {
                    None => v.is_none(),
                    Some(u) => match v {
                        None => false,
                        Some(v) => same_stmts(u.items(), v.items()),
                    },
                }
            }
            (Do::Send(e, a, x), Do::Send(f, b, y)) => {
                e.same(f) && a.is(b.bytes()) && same_exprs(x.items(), y.items())
            }
            (Do::SendAll(e, a, x), Do::SendAll(f, b, y)) => {
                e.same(f) && a.is(b.bytes()) && same_exprs(x.items(), y.items())
            }
            (Do::SetTag(a), Do::SetTag(b)) => *a == *b,
            (Do::SetState(a, x), Do::SetState(b, y)) => {
                a.is(b.bytes()) && same_exprs(x.items(), y.items())
            }
            (Do::Suspend(l, a, x, p), Do::Suspend(m, b, y, q)) => {
                l.is(m.bytes())
                    && a.is(b.bytes())
                    && same_exprs(x.items(), y.items())
                    && p.is(q.bytes())
            }
            (Do::Resume(a), Do::Resume(b)) => a.is(b.bytes()),
            (Do::Install, Do::Install) => true,
            (Do::Enqueue, Do::Enqueue) => true,
            (Do::WakeUp, Do::WakeUp) => true,
            (Do::Error(a), Do::Error(b)) => a.is(b.bytes()),
            (Do::ForEach(a, e, x), Do::ForEach(b, f, y)) => {
                same_loop(a, e, b, f) && same_stmts(x.items(), y.items())
            }
            (Do::Each(a, s, x), Do::Each(b, t, y)) => {
                same_each(a, *s, b, *t) && same_stmts(x.items(), y.items())
            }
            _ => false,
        }
    }
}

/// Whether they differ in line numbers alone.
#[cycle(same)]
pub fn same_stmts(a: &[Stmt], b: &[Stmt]) -> bool
    ensures { IsTrue result ↔ (bare_all a.now ≡ bare_all b.now) }
{
    if a.len() != b.len() {
        return false;
    }
    for (at, s) in a.iter().enumerate() {
        if !s.same(&b[at]) {
            return false;
        }
    }
    true
}

fn same_names(a: &[Name], b: &[Name]) -> bool
    ensures { IsTrue result ↔ (a.now ≡ b.now) }
{
    if a.len() != b.len() {
        return false;
    }
    for (at, name) in a.iter().enumerate() {
        if !name.is(b[at].bytes()) {
            return false;
        }
    }
    true
}

fn same_cont(a: &Option<Name>, b: &Option<Name>) -> bool
    ensures { IsTrue result ↔ (a.now ≡ b.now) }
{
    match (a, b) {
        (None, None) => true,
        (Some(a), Some(b)) => a.is(b.bytes()),
        _ => false,
    }
}

impl Trigger {
    fn same(&self, other: &Trigger) -> bool
        ensures { IsTrue result ↔ (self.now ≡ other.now) }
    {
        match (self, other) {
            (Trigger::RdFault, Trigger::RdFault) => true,
            (Trigger::WrFault, Trigger::WrFault) => true,
            (Trigger::Named(a), Trigger::Named(b)) => a.is(b.bytes()),
            (Trigger::Default, Trigger::Default) => true,
            _ => false,
        }
    }
}

impl Param {
    fn same(&self, other: &Param) -> bool
        ensures { IsTrue result ↔ (bare_param self.now ≡ bare_param other.now) }
    {
        self.name.is(other.name.bytes()) && self.ty == other.ty
    }
}

fn same_types(a: &[ValType], b: &[ValType]) -> bool
    ensures { IsTrue result ↔ (a.now ≡ b.now) }
{
    if a.len() != b.len() {
        return false;
    }
    for (at, ty) in a.iter().enumerate() {
        if *ty != b[at] {
            return false;
        }
    }
    true
}

fn same_chan(a: Chan, carries: bool, b: Chan, also: bool) -> bool
    ensures { IsTrue result ↔ ((a ≡ b) × (carries ≡ also)) }
{
    a == b && carries == also
}

impl MessageDecl {
    fn same(&self, other: &MessageDecl) -> bool
        ensures { IsTrue result ↔ (bare_message self.now ≡ bare_message other.now) }
    {
        self.name.is(other.name.bytes())
            && same_types(self.args.items(), other.args.items())
            && same_chan(self.chan, self.carries, other.chan, other.carries)
    }
}

impl Start {
    fn same(&self, other: &Start) -> bool
        ensures { IsTrue result ↔ (bare_start self.now ≡ bare_start other.now) }
    {
        self.home == other.home && self.state.is(other.state.bytes()) && self.tag == other.tag
    }
}

impl Handler {
    fn same(&self, other: &Handler) -> bool
        ensures { IsTrue result ↔ (bare_handler self.now ≡ bare_handler other.now) }
    {
        self.on.same(&other.on)
            && same_names(self.args.items(), other.args.items())
            && same_params(self.locals.items(), other.locals.items())
            && same_stmts(self.body.items(), other.body.items())
    }
}

impl State {
    fn same(&self, other: &State) -> bool
        ensures { IsTrue result ↔ (bare_state self.now ≡ bare_state other.now) }
    {
        self.name.is(other.name.bytes())
            && same_params(self.params.items(), other.params.items())
            && same_cont(&self.cont, &other.cont)
            && same_handlers(self.handlers.items(), other.handlers.items())
    }
}

fn same_params(a: &[Param], b: &[Param]) -> bool
    ensures { IsTrue result ↔ (map bare_param a.now ≡ map bare_param b.now) }
{
    if a.len() != b.len() {
        return false;
    }
    for (at, one) in a.iter().enumerate() {
        if !one.same(&b[at]) {
            return false;
        }
    }
    true
}

fn same_messages(a: &[MessageDecl], b: &[MessageDecl]) -> bool
    ensures { IsTrue result ↔ (map bare_message a.now ≡ map bare_message b.now) }
{
    if a.len() != b.len() {
        return false;
    }
    for (at, one) in a.iter().enumerate() {
        if !one.same(&b[at]) {
            return false;
        }
    }
    true
}

fn same_starts(a: &[Start], b: &[Start]) -> bool
    ensures { IsTrue result ↔ (map bare_start a.now ≡ map bare_start b.now) }
{
    if a.len() != b.len() {
        return false;
    }
    for (at, one) in a.iter().enumerate() {
        if !one.same(&b[at]) {
            return false;
        }
    }
    true
}

fn same_handlers(a: &[Handler], b: &[Handler]) -> bool
    ensures { IsTrue result ↔ (map bare_handler a.now ≡ map bare_handler b.now) }
{
    if a.len() != b.len() {
        return false;
    }
    for (at, one) in a.iter().enumerate() {
        if !one.same(&b[at]) {
            return false;
        }
    }
    true
}

fn same_states(a: &[State], b: &[State]) -> bool
    ensures { IsTrue result ↔ (map bare_state a.now ≡ map bare_state b.now) }
{
    if a.len() != b.len() {
        return false;
    }
    for (at, one) in a.iter().enumerate() {
        if !one.same(&b[at]) {
            return false;
        }
    }
    true
}

/// Whether the two trees differ in line numbers alone.
pub fn same(a: &Protocol, b: &Protocol) -> bool
    ensures { IsTrue result ↔ (bare_protocol a.now ≡ bare_protocol b.now) }
{
    a.name.is(b.name.bytes())
        && a.profile == b.profile
        && same_messages(a.messages.items(), b.messages.items())
        && same_params(a.infos.items(), b.infos.items())
        && same_starts(a.starts.items(), b.starts.items())
        && same_states(a.states.items(), b.states.items())
}
