use sqlite_items::Boxed;
use tw_base::Name;

/// An operator on two values.
#[derive(Clone, Copy, Debug, PartialEq, Eq)]
pub enum Op {
    Add,
    Sub,
    Eq,
    Ne,
    Lt,
    Le,
    And,
    Or,
    Has,
    With,
    Without,
}

/// An expression.
#[derive(Debug, Drop)]
pub enum Expr {
    Number(u32),
    True,
    False,
    /// The empty set.
    Empty,
    /// The sender of the message that the handler answers.
    Src,
    /// The node that the handler runs on.
    SelfNode,
    /// The home of the block.
    Home,
    Var(Name),
    /// The set of one node.
    One(Boxed<Expr>),
    Not(Boxed<Expr>),
    Count(Boxed<Expr>),
    Two(Op, Boxed<Expr>, Boxed<Expr>),
}
