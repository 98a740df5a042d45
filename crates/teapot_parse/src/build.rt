ghost use Rattle.std.specs.Prelude.{◌≡◌, IfOk, map};
ghost use Rattle.teapot_parse.specs.Building.{kept, param_at, trigger_of, top_of, below, put_on, if_on, else_on, no_parts};
ghost use Rattle.teapot_parse.specs.Building.{sent, plain, in_body, with_handler, with_line, built};

use crate::placed::Placed;
use std::alloc::Global;
use teapot_lines::{Answers, Cut, Form, Reach, Typed};
use teapot_tree::{Do, Expr, Handler, MessageDecl, Param, Start, State, Stmt, Trigger};
use tw_base::{Listed, Memory, Name, Stack};

/// The line that names the protocol.
#[derive(Drop)]
pub struct Head {
    pub name: Name,
    pub profile: u8,
    pub line: u32,
}

/// The statements of a block that stand so far, and whether it is that of an `Else`.
#[derive(Drop)]
pub struct Block {
    pub is_else: bool,
    pub stmts: Stack<Stmt>,
}

/// What the lines from some line on give: whole declarations, the handlers of a state and the locals of a handler
/// whose line is still to come, and the blocks that are open there.
#[derive(Drop)]
pub struct Parts {
    pub head: Option<Head>,
    pub messages: Stack<MessageDecl>,
    pub infos: Stack<Param>,
    pub starts: Stack<Start>,
    pub states: Stack<State>,
    pub handlers: Stack<Handler>,
    pub locals: Stack<Param>,
    pub blocks: Stack<Block>,
}

// No line has an expression that is too deep once the limits are checked.
fn kept(cut: Cut) -> Expr
    ensures { result ≡ kept cut }
{
    match cut {
        Cut::Kept(_, tree) => tree,
        Cut::Deep => Expr::Empty,
    }
}

fn all_kept(alloc: Global, cuts: Listed<Cut>) -> Result<Listed<Expr>, Memory>
    ensures { IfOk result (λ trees. trees ≡ map kept cuts) }
{
    let mut left = cuts;
    let mut trees = Stack::new(alloc);
    'cuts: while let Some(cut) = left.pop() {
        trees.push(kept(cut))?;
    }
    Ok(trees.into_listed())
}

fn params_at(alloc: Global, line: u32, typed: Listed<Typed>) -> Result<Listed<Param>, Memory>
    ensures { IfOk result (λ params. params ≡ map (param_at line) typed) }
{
    let mut left = typed;
    let mut params = Stack::new(alloc);
    'typed: while let Some(Typed { name, ty }) = left.pop() {
        params.push(Param { name, ty, line })?;
    }
    Ok(params.into_listed())
}

fn trigger_of(answers: Answers) -> Trigger
    ensures { result ≡ trigger_of answers }
{
    match answers {
        Answers::RdFault => Trigger::RdFault,
        Answers::WrFault => Trigger::WrFault,
        Answers::Named(name) => Trigger::Named(name),
    }
}

// Takes the innermost block.
fn take_top(alloc: Global, blocks: &mut Stack<Block>) -> Stack<Stmt>
    ensures top { result ≡ top_of blocks.old }
    ensures rest { blocks.new ≡ below blocks.old }
{
    match blocks.pop() {
        None => Stack::new(alloc),
        Some(Block { is_else: _, stmts }) => stmts,
    }
}

fn put_on(alloc: Global, blocks: &mut Stack<Block>, line: u32, what: Do) -> Result<(), Memory>
    ensures { IfOk result (λ u. blocks.new ≡ put_on line what blocks.old) }
{
    let mut block = match blocks.pop() {
        Some(block) => block,
        None => Block {
            is_else: false,
            stmts: Stack::new(alloc),
        },
    };
    block.stmts.push(Stmt { what, line })?;
    blocks.push(block)
}

fn if_on(
    alloc: Global,
    blocks: &mut Stack<Block>,
    line: u32,
    test: Expr,
    first: Listed<Stmt>,
) -> Result<(), Memory>
    ensures { IfOk result (λ u. blocks.new ≡ if_on line test first blocks.old) }
{
    match blocks.pop() {
        None => put_on(alloc, blocks, line, Do::If(test, first, None)),
        Some(Block { is_else, stmts }) => {
            if is_else {
                put_on(
                    alloc,
                    blocks,
                    line,
                    Do::If(test, first, Some(stmts.into_listed())),
                )
            } else {
                blocks.push(Block { is_else, stmts })?;
                put_on(alloc, blocks, line, Do::If(test, first, None))
            }
        }
    }
}

fn else_on(blocks: &mut Stack<Block>) -> Result<(), Memory>
    ensures { IfOk result (λ u. blocks.new ≡ else_on blocks.old) }
{
    match blocks.pop() {
        None => Ok(()),
        Some(Block { is_else: _, stmts }) => blocks.push(Block {
            is_else: true,
            stmts,
        }),
    }
}

fn no_parts(alloc: Global) -> Parts
    ensures { result ≡ no_parts }
{
    Parts {
        head: None,
        messages: Stack::new(alloc),
        infos: Stack::new(alloc),
        starts: Stack::new(alloc),
        states: Stack::new(alloc),
        handlers: Stack::new(alloc),
        locals: Stack::new(alloc),
        blocks: Stack::new(alloc),
    }
}

fn sent(reach: Reach, to: Expr, name: Name, args: Listed<Expr>) -> Do
    ensures { result ≡ sent reach to name args }
{
    match reach {
        Reach::One => Do::Send(to, name, args),
        Reach::All => Do::SendAll(to, name, args),
    }
}

// What a statement does that holds no other.
fn plain(alloc: Global, form: Form<Cut>) -> Result<Option<Do>, Memory>
    ensures { IfOk result (λ what. what ≡ plain form) }
{
    let what = match form {
        Form::Assign(name, value) => Do::Assign(name, kept(value)),
        Form::Send(reach, to, name, args) => sent(reach, kept(to), name, all_kept(alloc, args)?),
        Form::SetTag(tag) => Do::SetTag(tag),
        Form::SetState(name, args) => Do::SetState(name, all_kept(alloc, args)?),
        Form::Suspend(label, name, args, passed) => {
            Do::Suspend(label, name, all_kept(alloc, args)?, passed)
        }
        Form::Resume(name) => Do::Resume(name),
        Form::Error(name) => Do::Error(name),
        Form::Install => Do::Install,
        Form::Enqueue => Do::Enqueue,
        Form::WakeUp => Do::WakeUp,
        _ => return Ok(None),
    };
    Ok(Some(what))
}

fn in_body(
    alloc: Global,
    blocks: &mut Stack<Block>,
    line: u32,
    form: Form<Cut>,
) -> Result<(), Memory>
    ensures { IfOk result (λ u. blocks.new ≡ in_body line form blocks.old) }
{
    match form {
        Form::End => blocks.push(Block {
            is_else: false,
            stmts: Stack::new(alloc),
        }),
        Form::Else => else_on(blocks),
        Form::If(test) => {
            let first = take_top(alloc, blocks).into_listed();
            if_on(alloc, blocks, line, kept(test), first)
        }
        Form::ForEach(name, set) => {
            let body = take_top(alloc, blocks).into_listed();
            put_on(alloc, blocks, line, Do::ForEach(name, kept(set), body))
        }
        other => match plain(alloc, other)? {
            Some(what) => put_on(alloc, blocks, line, what),
            None => Ok(()),
        },
    }
}

fn with_handler(
    alloc: Global,
    parts: &mut Parts,
    line: u32,
    on: Trigger,
    args: Listed<Name>,
) -> Result<(), Memory>
    ensures { IfOk result (λ u. parts.new ≡ with_handler line on args parts.old) }
{
    let body = take_top(alloc, &mut parts.blocks).into_listed();
    let locals = std::mem::replace(&mut parts.locals, Stack::new(alloc)).into_listed();
    parts.handlers.push(Handler {
        on,
        args,
        locals,
        body,
        line,
    })
}

fn with_state(
    alloc: Global,
    parts: &mut Parts,
    line: u32,
    name: Name,
    params: Listed<Typed>,
    cont: Option<Name>,
) -> Result<(), Memory>
    ensures { IfOk result (λ u. parts.new ≡ with_line line (Form.State name params cont) parts.old) }
{
    let _block = take_top(alloc, &mut parts.blocks);
    let params = params_at(alloc, line, params)?;
    let handlers = std::mem::replace(&mut parts.handlers, Stack::new(alloc)).into_listed();
    parts.states.push(State {
        name,
        params,
        cont,
        handlers,
        line,
    })
}

fn with_line(alloc: Global, parts: &mut Parts, line: u32, form: Form<Cut>) -> Result<(), Memory>
    ensures { IfOk result (λ u. parts.new ≡ with_line line form parts.old) }
{
    match form {
        Form::Protocol(name, profile) => {
            parts.head = Some(Head {
                name,
                profile,
                line,
            });
            Ok(())
        }
        Form::Message(name, args, chan, carries) => parts.messages.push(MessageDecl {
            name,
            args,
            chan,
            carries,
            line,
        }),
        Form::Info(name, ty) => parts.infos.push(Param { name, ty, line }),
        Form::Start(home, state, tag) => parts.starts.push(Start {
            home,
            state,
            tag,
            line,
        }),
        Form::State(name, params, cont) => with_state(alloc, parts, line, name, params, cont),
        Form::On(answers, args) => with_handler(alloc, parts, line, trigger_of(answers), args),
        Form::Default => with_handler(alloc, parts, line, Trigger::Default, Listed::new(alloc)),
        Form::Local(name, ty) => parts.locals.push(Param { name, ty, line }),
        other => in_body(alloc, &mut parts.blocks, line, other),
    }
}

/// What the lines give.
pub fn built(alloc: Global, forms: Vec<Placed>) -> Result<Parts, Memory>
    ensures { IfOk result (λ parts. parts ≡ built forms.items) }
{
    let mut left = Listed::of(forms);
    let mut parts = no_parts(alloc);
    'lines: while let Some(Placed { line, form }) = left.pop() {
        with_line(alloc, &mut parts, line, form)?;
    }
    Ok(parts)
}
