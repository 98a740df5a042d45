ghost use Rattle.std.specs.Prelude.{◌≡◌, ◌+◌, ◌-◌, ◌<◌, ◌≤◌, ◌^◌};
ghost use Rattle.std.specs.List.{list_any};
ghost use Rattle.teapot_parse.specs.Counting.{no_counts, counted, is_deep, over_in_body, over, first_over};

use crate::placed::Placed;
use teapot_lines::{Cut, Form};

/// What there can be too many of, or what can be too deep, in the order of refusals on one line.
#[derive(Clone, Copy, Debug, PartialEq, Eq)]
pub enum Many {
    States,
    Messages,
    Handlers,
    Infos,
    /// Locals of one handler.
    Locals,
    /// Arguments in the line of a message or state.
    Args,
    /// The depth of an expression.
    Depth,
    /// `If` and `ForEach` within each other.
    Nest,
    /// `ForEach` in one handler.
    Loops,
}

/// How many there are so far. `locals` and `loops` are those of the last handler, `begins` those without their `End`.
#[derive(Clone, Copy)]
pub struct Counts {
    pub states: u64,
    pub messages: u64,
    pub handlers: u64,
    pub infos: u64,
    pub locals: u64,
    pub loops: u64,
    pub begins: u64,
}

fn no_counts() -> Counts
    ensures { result ≡ no_counts }
{
    Counts {
        states: 0,
        messages: 0,
        handlers: 0,
        infos: 0,
        locals: 0,
        loops: 0,
        begins: 0,
    }
}

fn counted(counts: Counts, form: &Form<Cut>) -> Counts
    requires { counts.states + counts.messages + counts.handlers + counts.infos + counts.locals + counts.loops + counts.begins
        < 2 ^ 64 - 1 }
    ensures value { result ≡ counted counts form.now }
    ensures one { result.states + result.messages + result.handlers + result.infos + result.locals + result.loops
        + result.begins ≤ counts.states + counts.messages + counts.handlers + counts.infos + counts.locals + counts.loops
        + counts.begins + 1 }
{
    let mut c = counts;
    match form {
        Form::State(_, _, _) => c.states += 1,
        Form::Message(_, _, _, _) => c.messages += 1,
        Form::On(_, _) => {
            c.handlers += 1;
            c.locals = 0;
            c.loops = 0;
        }
        Form::Default => {
            c.handlers += 1;
            c.locals = 0;
            c.loops = 0;
        }
        Form::Info(_, _) => c.infos += 1,
        Form::Local(_, _) => c.locals += 1,
        Form::ForEach(_, _) => c.loops += 1,
        Form::Begin => c.begins += 1,
        Form::End => c.begins = c.begins.saturating_sub(1),
        _ => {}
    }
    c
}

fn is_deep(cut: &Cut) -> bool
    ensures { result ≡ is_deep cut.now }
{
    match cut {
        Cut::Deep => true,
        Cut::Kept(_, _) => false,
    }
}

fn any_deep(cuts: &[Cut]) -> bool
    ensures { result ≡ list_any is_deep cuts.now }
{
    cuts.iter().any(|cut| is_deep(cut))
}

// The first kind of limit that the line passes.
fn over(counts: Counts, form: &Form<Cut>) -> Option<Many>
    ensures { result ≡ over counts form.now }
{
    match form {
        Form::State(_, params, _) => {
            if counts.states > 64 {
                Some(Many::States)
            } else if params.len() > 4 {
                Some(Many::Args)
            } else {
                None
            }
        }
        Form::Message(_, types, _, _) => {
            if counts.messages > 64 {
                Some(Many::Messages)
            } else if types.len() > 4 {
                Some(Many::Args)
            } else {
                None
            }
        }
        Form::On(_, _) => (counts.handlers > 1024).then_some(Many::Handlers),
        Form::Default => (counts.handlers > 1024).then_some(Many::Handlers),
        Form::Info(_, _) => (counts.infos > 8).then_some(Many::Infos),
        Form::Local(_, _) => (counts.locals > 8).then_some(Many::Locals),
        _ => over_in_body(counts, form),
    }
}

// The same of a statement.
fn over_in_body(counts: Counts, form: &Form<Cut>) -> Option<Many>
    ensures { result ≡ over_in_body counts form.now }
{
    match form {
        Form::If(test) => {
            if is_deep(test) {
                Some(Many::Depth)
            } else if counts.begins > 17 {
                Some(Many::Nest)
            } else {
                None
            }
        }
        Form::ForEach(_, set) => {
            if is_deep(set) {
                Some(Many::Depth)
            } else if counts.begins > 17 {
                Some(Many::Nest)
            } else if counts.loops > 4 {
                Some(Many::Loops)
            } else {
                None
            }
        }
        Form::Assign(_, value) => is_deep(value).then_some(Many::Depth),
        Form::Send(_, to, _, args) => {
            (is_deep(to) || any_deep(args.items())).then_some(Many::Depth)
        }
        Form::SetState(_, args) => any_deep(args.items()).then_some(Many::Depth),
        Form::Suspend(_, _, args, _) => any_deep(args.items()).then_some(Many::Depth),
        _ => None,
    }
}

/// The first line at which a limit is passed, and which.
pub fn first_over(forms: &[Placed]) -> Option<(Many, u32)>
    ensures { result ≡ first_over no_counts forms.now }
{
    let mut counts = no_counts();
    for placed in forms {
        counts = counted(counts, &placed.form);
        if let Some(what) = over(counts, &placed.form) {
            return Some((what, placed.line));
        }
    }
    None
}
