ghost use Rattle.std.specs.Prelude.{◌≡◌, ℕ, ◌++◌, ◌<◌, IfOk, OnOk, length, option_to_list, slice_get, slice_index};
ghost use Rattle.dsm_runs.specs.Laws.{IsLog};
ghost use Rattle.dsm_runs.specs.Merges.{IsMerge};
ghost use Rattle.journal.specs.Merging.{first_of, log_at, moved, next_stamp, sooner, stamps_of};

use std::alloc::Global;
use tw_base::{Entry, Listed, Memory};

// The stamp of the entry of a log that comes next, None where all have come.
fn next_stamp(log: &Listed<Entry>, place: usize) -> Option<u64>
    ensures { result ≡ next_stamp log.now place }
{
    match log.get(place) {
        Some(entry) => Some(entry.stamp),
        None => None,
    }
}

// Of two nodes and the stamps of their next entries, the one that comes first; at equal stamps the earlier node.
fn sooner(first: Option<(usize, u64)>, node: usize, stamp: Option<u64>) -> Option<(usize, u64)>
    ensures { result ≡ sooner first node stamp }
{
    let Some(stamp) = stamp else {
        return first;
    };
    match first {
        Some((_, least)) if least <= stamp => first,
        _ => Some((node, stamp)),
    }
}

// The node whose next entry comes first, None where all have come.
fn first_node(logs: &[Listed<Entry>], places: &[usize]) -> Option<(usize, u64)>
    requires { length places.now ≡ length logs.now }
    ensures { result ≡ first_of (length logs.now) (stamps_of logs.now places.now) }
{
    let mut first = None;
    for node in 0..logs.len() {
        first = sooner(first, node, next_stamp(&logs[node], places[node]));
    }
    first
}

// Moves the next entry of a node's log behind the journal.
fn take_next(
    logs: &[Listed<Entry>],
    node: usize,
    places: &mut Vec<usize>,
    journal: &mut Listed<Entry>,
) -> Result<(), Memory>
    requires node { node < length logs.now }
    requires places { length places.old.items ≡ length logs.now }
    requires place { slice_index places.old.items node < length (log_at logs.now node) }
    ensures journal { let next = slice_get (log_at logs.now node) (slice_index places.old.items node)
        in OnOk result (journal.new ≡ journal.old ++ option_to_list next) }
    ensures places { OnOk result (places.new.items ≡ moved places.old.items node) }
{
    let (log, place) = (logs[node].items(), places[node]);
    journal.push(log[place])?;
    places[node] = place + 1;
    Ok(())
}

/// The logs of nodes, by node, as one journal: its entries are theirs, by stamp and where stamps are equal by node. The stamps
/// of each log rise. Want of memory is the only error.
pub fn merge(alloc: Global, logs: &[Listed<Entry>]) -> Result<Listed<Entry>, Memory>
    requires { (i : ℕ) → i < length logs.now → IsLog i (log_at logs.now i) }
    ensures { IfOk result (λ journal. IsMerge (length logs.now) (log_at logs.now) journal) }
{
    let count = logs
        .iter()
        .fold(0usize, |count, log| count.saturating_add(log.len()));
    let mut journal = Listed::of(Vec::with_capacity(alloc, count)?);
    let mut places = vec![in alloc; 0usize; logs.len()]?;
    'entries: while let Some((node, _)) = first_node(logs, &places) {
        take_next(logs, node, &mut places, &mut journal)?;
    }
    Ok(journal)
}
