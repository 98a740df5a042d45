ghost use Rattle.std.specs.Prelude.{◌≡◌, [], map, IfOk};
ghost use Rattle.dsm_runs.specs.Worlds.{World};
ghost use Rattle.still_meaning.specs.Stills.{IsStill};
ghost use Rattle.tw_wire.specs.Wires.{AreNames};
ghost use Rattle.node_runtime.specs.Places.{AreOpenedBelow};

use dsm_runs::Setup;
use handler_code::Code;
use node_core::Node;
use node_seats::{Naming, Opened};
use seat_meaning::opened_seats_are_still;
use std::alloc::Global;
use std::sync::Wait;
use still_nodes::Still;
use tw_base::Memory;
use tw_wire::{Ends, Wires};

// The nodes of opened seats, and the ends of their wires.
#[derive(Drop)]
struct Parts<'a> {
    nodes: Vec<Node<'a>>,
    ends: Vec<Ends>,
}

// Takes opened seats apart.
fn parted<'a>(alloc: Global, opened: Vec<Opened<'a>>) -> Result<Parts<'a>, Memory>
    ensures nodes { IfOk result (λ p. p.nodes.items ≡ map (λ o. o.node) opened.entry.items) }
    ensures ends { IfOk result (λ p. p.ends.items ≡ map (λ o. o.ends) opened.entry.items) }
{
    let mut nodes = Vec::new(alloc);
    let mut ends = Vec::new(alloc);
    for one in opened {
        let Opened {
            node,
            ends: own,
            closed: _,
        } = one;
        nodes.push(node)?;
        ends.push(own)?;
    }
    Ok(Parts { nodes, ends })
}

/// Closes the wires of opened seats: their nodes, with what is left on the wires between them.
pub fn closed<'a, N: Naming, R: Wait>(
    rt: &R,
    alloc: Global,
    setup: &'a Setup,
    code: &'a Code,
    wires: Wires,
    opened: Vec<Opened<'a>>,
) -> Result<Still<'a>, Memory>
    requires setup { setup.now ≡ N.setup }
    requires code { code.now ≡ N.code }
    requires wires { wires ≡ N.wires }
    requires names { AreNames N.setup.shape.nodes N.wires }
    requires opened { AreOpenedBelow N.setup N.code N.wires 8 opened.items }
    ensures setup { IfOk result (λ s. s.setup ≡ N.setup) }
    ensures code { IfOk result (λ s. s.code ≡ N.code) }
    ensures taken { IfOk result (λ s. s.taken ≡ []) }
    ensures state { IfOk result (λ s. (g : World) × IsStill s g) }
{
    opened_seats_are_still();
    let _shape = setup.shape();
    let Parts { nodes, ends } = parted(alloc, opened)?;
    let left = wires.close(rt, alloc, ends)?;
    Still::opened(alloc, setup, code, nodes, left)
}
