ghost use Rattle.std.specs.Prelude.{◌≡◌, ◌<◌, ◌≤◌, slice_get};
ghost use Rattle.dsm_runs.specs.Schedules.{node_events};
ghost use Rattle.event_masks.specs.Told.{told_at, true_at};
ghost use Rattle.node_parts.specs.Truths.{truths};

use tw_base::{Chan, Event, NodeId};

/// The place of the k-th of the lowest bits that is 1.
fn nth_told(word: u32, k: u32, places: u8) -> Option<u8>
    requires { places ≤ 32 }
    ensures { result ≡ true_at (truths places word) k }
{
    let mut left = word;
    for passed in 0..k {
        if left == 0 {
            return None;
        }
        left &= left - 1;
    }
    let place = left.trailing_zeros();
    if place >= u32::from(places) {
        return None;
    }
    Some(place as u8)
}

/// The node of a number below 8.
pub fn numbered(number: u8) -> NodeId
    requires { number < 8 }
    ensures { result ≡ number }
{
    NodeId::new(number).unwrap()
}

/// The event of a node that a bit of its word tells.
fn event_at(node: NodeId, place: u8, nodes: u8) -> Option<Event>
    requires { nodes ≤ 8 }
    ensures { result ≡ slice_get (node_events nodes node) place }
{
    if place >= 2 + 2 * nodes {
        return None;
    }
    if place == 0 {
        return Some(Event::Instr(node));
    }
    if place == 1 {
        return Some(Event::Redeliver(node));
    }
    let from = numbered((place - 2) / 2);
    if place % 2 == 0 {
        return Some(Event::Deliver {
            at: node,
            from,
            chan: Chan::Zero,
        });
    }
    Some(Event::Deliver {
        at: node,
        from,
        chan: Chan::One,
    })
}

/// The k-th of the events of a node that its word tells.
#[tactic(auto, using(crate::proofs::Telling::told_found, crate::proofs::Telling::told_none))]
pub fn event_told(node: NodeId, word: u32, k: u32, nodes: u8) -> Option<Event>
    requires { nodes ≤ 8 }
    ensures { result ≡ slice_get (told_at nodes node word) k }
{
    let Some(place) = nth_told(word, k, 2 + 2 * nodes) else {
        return None;
    };
    event_at(node, place, nodes)
}
