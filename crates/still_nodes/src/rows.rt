ghost use Rattle.std.specs.Prelude.{◌≡◌, ◌*◌, ◌≤◌, length, map, IfOk};
ghost use Rattle.still_nodes.specs.Opening.{rows_of};

use crate::row::{Queue, Row};
use std::alloc::Global;
use tw_base::{Memory, Message};

// A queue of each of these lists.
fn queues_of(alloc: Global, lists: Vec<Vec<Message>>) -> Result<Vec<Queue>, Memory>
    ensures { IfOk result (λ queues. queues.items ≡ map (λ v. v.items) lists.items) }
{
    let mut queues = Vec::new(alloc);
    for messages in lists {
        queues.push(Queue::of(messages))?;
    }
    Ok(queues)
}

// Cuts queues into rows, of the next `width` each.
fn cut(alloc: Global, mut queues: Vec<Queue>, width: usize, count: u8) -> Result<Vec<Row>, Memory>
    requires width { width ≤ 16 }
    requires count { length queues.items ≡ width * count }
    ensures { IfOk result (λ rows. rows.items ≡ rows_of width count queues.items) }
{
    let mut rows = Vec::new(alloc);
    for _ in 0..count {
        let rest = queues.split_off(width)?;
        rows.push(Row::padded(alloc, queues)?)?;
        queues = rest;
    }
    Ok(rows)
}

/// The rows of these messages, which are by sender, receiver and channel.
pub fn rows_of(alloc: Global, nodes: u8, left: Vec<Vec<Message>>) -> Result<Vec<Row>, Memory>
    requires nodes { nodes ≤ 8 }
    requires count { length left.items ≡ 2 * nodes * nodes }
    ensures { IfOk result (λ rows. rows.items ≡ rows_of (2 * nodes) nodes (map (λ v. v.items) left.items)) }
{
    let queues = queues_of(alloc, left)?;
    cut(alloc, queues, 2 * usize::from(nodes), nodes)
}
