use crate::Stmt;
use tw_base::{Chan, Listed, Name, Tag};

/// The type of a variable or argument.
#[derive(Clone, Copy, Debug, PartialEq, Eq)]
pub enum ValType {
    Int,
    Bool,
    Node,
    Set,
}

/// A declared variable.
#[derive(Debug, Drop)]
pub struct Param {
    pub name: Name,
    pub ty: ValType,
    pub line: u32,
}

/// A declared message: the types of its arguments, its channel, and whether it carries the words of its block.
#[derive(Debug, Drop)]
pub struct MessageDecl {
    pub name: Name,
    pub args: Listed<ValType>,
    pub chan: Chan,
    pub carries: bool,
    pub line: u32,
}

/// How a block starts, at its home or elsewhere.
#[derive(Debug, Drop)]
pub struct Start {
    pub home: bool,
    pub state: Name,
    pub tag: Tag,
    pub line: u32,
}

/// What a handler answers.
#[derive(Debug, Drop)]
pub enum Trigger {
    /// A refused load.
    RdFault,
    /// A refused store.
    WrFault,
    /// A message.
    Named(Name),
    /// All else.
    Default,
}

/// What a state does with a message.
#[derive(Debug, Drop)]
pub struct Handler {
    pub on: Trigger,
    pub args: Listed<Name>,
    pub locals: Listed<Param>,
    pub body: Listed<Stmt>,
    pub line: u32,
}

#[derive(Debug, Drop)]
pub struct State {
    pub name: Name,
    pub params: Listed<Param>,
    /// The name of its continuation, if it has one.
    pub cont: Option<Name>,
    pub handlers: Listed<Handler>,
    pub line: u32,
}

/// A protocol, of profile 1 or 2 of the language.
#[derive(Debug, Drop)]
pub struct Protocol {
    pub name: Name,
    pub profile: u8,
    pub line: u32,
    pub messages: Listed<MessageDecl>,
    pub infos: Listed<Param>,
    pub starts: Listed<Start>,
    pub states: Listed<State>,
}
