use crate::Expr;
use tw_base::{Listed, Name, NodeSet, Tag};

/// A statement and its line in the text.
#[cycle(statement)]
#[derive(Debug, Drop)]
pub struct Stmt {
    pub what: Do,
    pub line: u32,
}

/// What a statement does.
#[cycle(statement)]
#[derive(Debug, Drop)]
pub enum Do {
    Assign(Name, Expr),
    /// The test, the statements where it holds, and those of its `Else`, if it has one.
    If(Expr, Listed<Stmt>, Option<Listed<Stmt>>),
    /// The receiver, the message and its arguments.
    Send(Expr, Name, Listed<Expr>),
    /// The set of receivers, the message and its arguments.
    SendAll(Expr, Name, Listed<Expr>),
    SetTag(Tag),
    SetState(Name, Listed<Expr>),
    /// The label, the state, its arguments, and the name that is passed on, which is to be the label.
    Suspend(Name, Name, Listed<Expr>, Name),
    Resume(Name),
    Install,
    Enqueue,
    WakeUp,
    Error(Name),
    /// For each member of a set, in rising order (profile 2).
    ForEach(Name, Expr, Listed<Stmt>),
    /// A loop on its way, with the members that are left. It stands in no text, only in what follows a suspension.
    Each(Name, NodeSet, Listed<Stmt>),
}
