use teapot_tree::ValType;
use tw_base::{Chan, Listed, Name, Tag};

/// A name and its type.
#[derive(Debug, Drop)]
pub struct Typed {
    pub name: Name,
    pub ty: ValType,
}

/// What the line of a handler answers.
#[derive(Debug, Drop)]
pub enum Answers {
    RdFault,
    WrFault,
    Named(Name),
}

/// Whether a send goes to a node or to all of a set.
#[derive(Clone, Copy, Debug, PartialEq, Eq)]
pub enum Reach {
    One,
    All,
}

/// A line of a protocol, over its expressions.
#[derive(Debug, Drop)]
pub enum Form<E> {
    /// The name and the profile.
    Protocol(Name, u8),
    /// The name, the types of the arguments, the channel, and whether it carries data.
    Message(Name, Listed<ValType>, Chan, bool),
    Info(Name, ValType),
    /// Whether it is the home's, the state and the tag.
    Start(bool, Name, Tag),
    /// The name, the arguments, and the continuation's name, if it has one.
    State(Name, Listed<Typed>, Option<Name>),
    On(Answers, Listed<Name>),
    Default,
    Local(Name, ValType),
    Begin,
    End,
    If(E),
    Else,
    Assign(Name, E),
    /// The receivers, the message and its arguments.
    Send(Reach, E, Name, Listed<E>),
    SetTag(Tag),
    SetState(Name, Listed<E>),
    /// The label, the state, its arguments, and the name that is passed on.
    Suspend(Name, Name, Listed<E>, Name),
    Resume(Name),
    Error(Name),
    Install,
    Enqueue,
    WakeUp,
    ForEach(Name, E),
}
