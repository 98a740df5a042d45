//! Trees of Teapot protocols: their types, when two trees are the same but for line numbers, which trees the grammar
//! gives, what a tree breaks of the rules of the language, and `Checked`, a tree that breaks none.
#![tactic(auto)]

mod checked;
mod compare;
mod copy;
mod expr;
mod keyword;
mod laws;
mod protocol;
mod rule;
mod stmt;

pub use checked::Checked;
pub use compare::{same, same_exprs, same_stmts};
pub use copy::{copy_exprs, copy_stmts};
pub use expr::{Expr, Op};
pub use keyword::{Keyword, keyword_of};
pub use laws::{one_first_break, trees};
pub use protocol::{Handler, MessageDecl, Param, Protocol, Start, State, Trigger, ValType};
pub use rule::Rule;
pub use stmt::{Do, Stmt};
