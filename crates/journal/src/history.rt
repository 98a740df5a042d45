ghost use Rattle.std.specs.Prelude.{◌≡◌, ◌<◌, ◌^◌, length, IfSome, IfNone, Some, None};
ghost use Rattle.dsm_runs.specs.Flat.{flat_step, is_completed, reading};
ghost use Rattle.journal.specs.History.{break_at, break_from};

use mini_asm::Flat;
use tw_base::{Act, Entry, NodeId};

/// A read of a journal that the flat machine does not make: the place of its entry from 0, its node, the address, the
/// value that was read and the value that was due.
#[derive(Clone, Copy, Debug, PartialEq, Eq)]
pub struct Break {
    pub event: u32,
    pub node: NodeId,
    pub address: u32,
    pub read: u64,
    pub due: u64,
}

// Whether an act is that of an instruction that completed.
fn is_completed(act: Act) -> bool
    ensures { result ≡ is_completed act }
{
    !matches!(
        act,
        Act::Fault { .. } | Act::Redelivered { .. } | Act::Delivered { .. }
    )
}

// The address that an act read, and the value.
fn reading(act: Act) -> Option<(u32, u64)>
    ensures { result ≡ reading act }
{
    match act {
        Act::Load { address, value } | Act::Faa { address, value, .. } => Some((address, value)),
        _ => None,
    }
}

// Executes the next instruction of a node, None where it has ended.
fn flat_step(flat: &mut Flat, node: NodeId) -> Option<Act>
    ensures value { IfSome result (λ act. flat_step flat.old node ≡ Some (act, flat.new)) }
    ensures none { IfNone result (flat_step flat.old node ≡ None) }
    ensures same { IfNone result (flat.new ≡ flat.old) }
{
    if flat.running(node) {
        Some(flat.step(node))
    } else {
        None
    }
}

fn break_at(
    event: u32,
    node: NodeId,
    read: Option<(u32, u64)>,
    due: Option<(u32, u64)>,
) -> Option<Break>
    ensures { result ≡ break_at event node read due }
{
    let ((address, read), (_, due)) = (read?, due?);
    if read == due {
        None
    } else {
        Some(Break {
            event,
            node,
            address,
            read,
            due,
        })
    }
}

/// The first read of a journal whose value is not that of a flat machine, which executes the instructions that completed
/// in the journal's order.
pub fn first_break(flat: &mut Flat, journal: &[Entry]) -> Option<Break>
    requires { length journal.now < 2 ^ 32 }
    ensures { result ≡ break_from flat.old 0 journal.now }
{
    for (event, entry) in journal.iter().enumerate() {
        if is_completed(entry.act) {
            let act = flat_step(flat, entry.node)?;
            let found = break_at(event as u32, entry.node, reading(entry.act), reading(act));
            if found.is_some() {
                return found;
            }
        }
    }
    None
}
