ghost use Rattle.std.specs.Prelude.{◌≡◌, ◌<◌, ◌^◌, [], length, replicate, slice_get, Some, IfOk};
ghost use Rattle.compiled_meaning.specs.Whole.{IsCode};
ghost use Rattle.dsm_runs.specs.Worlds.{start};
ghost use Rattle.node_meaning.specs.Tallies.{first_tally};
ghost use Rattle.still_meaning.specs.Stills.{IsStill, tallies};
ghost use Rattle.still_nodes.specs.Beginning.{AreFirst, IsFirst};

use crate::row::Row;
use crate::taken::TakenEntries;
use dsm_runs::Setup;
use handler_code::Code;
use node_core::Node;
use std::alloc::Global;
use std::marker::Model;
use tw_base::{Entry, Memory, NodeId};

/// All nodes of a machine on one thread, and the messages between them.
#[derive(Drop)]
pub struct Still<'a> {
    pub(crate) setup: &'a Setup,
    pub(crate) code: &'a Code,
    pub(crate) nodes: Vec<Node<'a>>,
    // by sender
    pub(crate) rows: Vec<Row>,
    // of the events that were made, in the order made
    pub(crate) taken: TakenEntries,
}

impl<'a> Model for Still<'a> {
    ghost use Rattle.std.specs.Coded.{codes};
    ghost use Rattle.teapot_tree.specs.contracts.expr.Expr as expr;
    ghost use Rattle.teapot_tree.specs.contracts.stmt.Do as statement;
    ghost use Rattle.still_meaning.specs.Stills.{AreWhole, StillShown};
    ghost use Rattle.still_nodes.specs.Parts.{all_of};

    ghost Value = { StillShown };

    ghost coded = { Prim.hlevel (codes, expr.the_row.coded, statement.the_row.coded) };

    ghost view = { λ s. all_of s.setup.now s.code.now s.nodes.items s.rows.items s.taken.list };

    ghost invariant = { λ s. AreWhole (all_of s.setup.now s.code.now s.nodes.items s.rows.items s.taken.list) };
}

/// A node at the start of its program.
fn first_node<'a>(
    alloc: Global,
    setup: &'a Setup,
    code: &'a Code,
    me: NodeId,
) -> Result<Node<'a>, Memory>
    requires code { IsCode setup.now.protocol code.now }
    requires short { length code.now.ops < 2 ^ 22 }
    requires me { me < setup.now.shape.nodes }
    ensures { IfOk result (IsFirst setup.now code.now me) }
{
    Node::new(alloc, setup, code, me)
}

/// The nodes at the start of their programs.
fn first_nodes<'a>(alloc: Global, setup: &'a Setup, code: &'a Code) -> Result<Vec<Node<'a>>, Memory>
    requires code { IsCode setup.now.protocol code.now }
    requires short { length code.now.ops < 2 ^ 22 }
    ensures count { IfOk result (λ nodes. length nodes.items ≡ setup.now.shape.nodes) }
    ensures each { IfOk result (λ nodes. AreFirst setup.now code.now nodes.items) }
{
    let mut nodes = Vec::new(alloc);
    for number in 0..setup.shape().nodes() {
        let me = NodeId::new(number).unwrap();
        nodes.push(first_node(alloc, setup, code, me)?)?;
    }
    Ok(nodes)
}

/// A row in which nothing follows, for each sender.
fn first_rows(alloc: Global, senders: u8) -> Result<Vec<Row>, Memory>
    ensures { IfOk result (λ rows. rows.items ≡ replicate senders (replicate 16 [])) }
{
    let mut rows = Vec::new(alloc);
    for made in 0..senders {
        rows.push(Row::new(alloc)?)?;
    }
    Ok(rows)
}

impl<'a> Still<'a> {
    /// All nodes at the start of their programs, with nothing on its way.
    pub fn new(alloc: Global, setup: &'a Setup, code: &'a Code) -> Result<Self, Memory>
        requires code { IsCode setup.now.protocol code.now }
        requires short { length code.now.ops < 2 ^ 22 }
        ensures setup { IfOk result (λ s. s.setup ≡ setup.now) }
        ensures code { IfOk result (λ s. s.code ≡ code.now) }
        ensures taken { IfOk result (λ s. s.taken ≡ []) }
        ensures start { IfOk result (λ s. IsStill s (start setup.now)) }
        ensures tallies { IfOk result (λ s. tallies s ≡ first_tally setup.now) }
    {
        let nodes = first_nodes(alloc, setup, code)?;
        let rows = first_rows(alloc, setup.shape().nodes())?;
        Ok(Still {
            setup,
            code,
            nodes,
            rows,
            taken: TakenEntries::new(alloc),
        })
    }

    /// A node, by its number.
    pub fn node(&self, node: NodeId) -> &Node<'a>
        requires { node < self.now.setup.shape.nodes }
        ensures { slice_get self.now.nodes node ≡ Some result.now }
    {
        &self.nodes[usize::from(node.get())]
    }

    /// The entries of the events that were made, in the order made.
    pub fn taken(&self) -> &[Entry]
        ensures { result.now ≡ self.now.taken }
    {
        self.taken.entries()
    }
}
