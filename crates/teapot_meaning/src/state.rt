ghost use Rattle.std.specs.Prelude.{◌≡◌};
ghost use Rattle.teapot_meaning.specs.Steps.{freed_kept};

use sqlite_items::Boxed;
use teapot_tree::Stmt;
use tw_base::{BlockId, Data, End, Kind, Listed, Name, NodeId, Stack, Tag, Value};

/// A variable and its value.
#[derive(Debug, Drop)]
pub struct Bound {
    pub name: Name,
    pub value: Value,
}

/// A state by its number, its arguments, and what is to be resumed from it.
#[cycle(state)]
#[derive(Debug, Drop)]
pub struct StateVal {
    pub state: u8,
    pub args: Listed<Value>,
    pub cont: Option<Boxed<Cont>>,
}

/// The statements after a `Suspend`, the variables there, the data of its handler's message, and the state that was
/// left.
#[cycle(state)]
#[derive(Debug, Drop)]
pub struct Cont {
    pub rest: Listed<Stmt>,
    pub vars: Listed<Bound>,
    pub came: Option<Data>,
    pub saved: Boxed<StateVal>,
}

/// A block at a node.
#[derive(Debug, Drop)]
pub struct Here {
    pub me: NodeId,
    pub home: NodeId,
    pub block: BlockId,
    pub infos: Listed<Value>,
    pub state: StateVal,
    pub tag: Tag,
    pub words: Data,
}

/// A message that a handler sends.
#[derive(Debug, Drop)]
pub struct Out {
    pub to: NodeId,
    pub kind: Kind,
    pub args: Listed<Value>,
    pub payload: Option<Data>,
}

/// Whether the message at hand was deferred, and is to be handled again.
#[derive(Clone, Copy, Debug, PartialEq, Eq)]
pub enum Kept {
    No,
    Stale,
    Eligible,
}

/// What becomes of a message when the block's deferred messages are eligible.
pub fn free(kept: Kept) -> Kept
    ensures { result ≡ freed_kept kept }
{
    match kept {
        Kept::Stale => Kept::Eligible,
        _ => kept,
    }
}

/// A handler under way: the block, the variables, the data of the handler's message, and what was done so far.
#[derive(Debug, Drop)]
pub struct Running {
    pub here: Here,
    pub vars: Listed<Bound>,
    pub came: Option<Data>,
    pub sends: Listed<Out>,
    pub kept: Kept,
    pub freed: bool,
    pub woke: bool,
}

/// A handler that has ended.
#[derive(Debug, Drop)]
pub struct Ended {
    pub here: Here,
    pub sends: Listed<Out>,
    pub kept: Kept,
    pub freed: bool,
    pub woke: bool,
    pub end: End,
}

/// What a statement leads to: the statements that follow, or the end.
#[derive(Debug, Drop)]
pub enum Next {
    On(Stack<Stmt>, Running),
    Over(Ended),
}
