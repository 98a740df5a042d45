use dsm_runs::Setup;
use journal::{Final, Options, first_break, report};
use mini_asm::Flat;
use std::alloc::Global;
use std::test::Fail;
use still_nodes::Gathered;
use tw_base::{Entry, Listed};

/// The report of a run.
pub fn told(
    alloc: Global,
    setup: &Setup,
    gathered: &Gathered,
    options: Options,
) -> Result<Vec<u8>, Fail> {
    let entries = gathered.taken.items();
    if entries.len() > 1 << 20 {
        return Err(Fail::new("too many entries"));
    }
    let mut flat = Flat::new(alloc, setup.shape(), setup.init(), setup.programs())?;
    let broken = first_break(&mut flat, entries);
    let (finals, words) = (gathered.finals.items(), gathered.words.items());
    Ok(report(alloc, setup, entries, finals, words, broken, options)?)
}

/// Whether a log has the entries of its node, in their order, and no others.
fn is_log(node: usize, log: &[Entry], entries: &[Entry]) -> bool {
    let mut left = log;
    for entry in entries {
        if usize::from(entry.node.get()) == node {
            match left.split_first() {
                Some((first, rest)) if first == entry => left = rest,
                _ => return false,
            }
        }
    }
    left.is_empty()
}

/// Whether the logs of the nodes have the entries of the events that were made, by node.
fn are_logs(logs: &[Listed<Entry>], entries: &[Entry]) -> bool {
    for (node, log) in logs.iter().enumerate() {
        if !is_log(node, log.items(), entries) {
            return false;
        }
    }
    true
}

/// How many events the nodes made: instructions and messages that they handled.
fn count(finals: &[Final]) -> u64 {
    let mut count = 0u64;
    for ended in finals {
        let made = u64::from(ended.instructions) + u64::from(ended.handled);
        count = count.saturating_add(made);
    }
    count
}

/// Whether the logs have the events that were made, and how the nodes ended counts them.
pub fn are_all(gathered: &Gathered) -> bool {
    let entries = gathered.taken.items();
    are_logs(&gathered.logs, entries) && count(gathered.finals.items()) == entries.len() as u64
}
