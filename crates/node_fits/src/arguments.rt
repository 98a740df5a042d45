//! The arguments of a message: their types, and the nodes in them.

ghost use Rattle.std.specs.Prelude.{◌≡◌, ◌<◌, ◌↔◌, ℕ, IsTrue, map, true};
ghost use Rattle.tw_base.specs.NodeSets.{has};
ghost use Rattle.teapot_meaning.specs.Fits.{type_of};
ghost use Rattle.value_nodes.specs.Within.{AreWithin, IsValueWithin};

use teapot_tree::ValType;
use tw_base::{NodeId, NodeSet, Value};

fn type_of(value: &Value) -> ValType
    ensures { result ≡ type_of value.now }
{
    match value {
        Value::Int(_) => ValType::Int,
        Value::Bool(_) => ValType::Bool,
        Value::Node(_) => ValType::Node,
        Value::Set(_) => ValType::Set,
    }
}

/// Whether the values have these types.
pub fn have_types(values: &[Value], types: &[ValType]) -> bool
    ensures { IsTrue result ↔ (map type_of values.now ≡ types.now) }
{
    if values.len() != types.len() {
        return false;
    }
    for (k, value) in values.iter().enumerate() {
        if type_of(value) != types[k] {
            return false;
        }
    }
    true
}

// Whether all members are below n.
fn members_are_within(set: NodeSet, nodes: u8) -> bool
    ensures { IsTrue result ↔ ((k : ℕ) → has set k ≡ true → k < nodes) }
{
    for k in 0..8 {
        if set.has(NodeId::new(k).unwrap()) && k >= nodes {
            return false;
        }
    }
    true
}

// Whether all nodes in the value are below n.
fn is_within(value: &Value, nodes: u8) -> bool
    ensures { IsTrue result ↔ IsValueWithin nodes value.now }
{
    match value {
        Value::Node(node) => node.get() < nodes,
        Value::Set(set) => members_are_within(*set, nodes),
        _ => true,
    }
}

/// Whether all nodes in the values are below n.
pub fn are_within(values: &[Value], nodes: u8) -> bool
    ensures { IsTrue result ↔ AreWithin nodes values.now }
{
    for value in values {
        if !is_within(value, nodes) {
            return false;
        }
    }
    true
}
