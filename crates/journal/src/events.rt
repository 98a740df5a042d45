ghost use Rattle.std.specs.Prelude.{◌≡◌, ◌++◌, OnOk};
ghost use Rattle.std.specs.List.{flat_map, enumerate_from};
ghost use Rattle.tw_base.specs.declared.entry.Act.TheVariants as act;
ghost use Rattle.printed_text.specs.Lines.{spaced};
ghost use Rattle.journal.specs.Reports.{act_words, after_words, event_line, print_line};

use printed_text::{Names, Text, add_failure, chan_text, fault_text, tag_text, trap_text};
use tw_base::{Act, After, BlockId, Chan, Entry, Kind, Memory, NodeId};

fn add_print(out: &mut Text, entry: &Entry) -> Result<(), Memory>
    ensures { OnOk result (out.new ≡ out.old ++ print_line entry.now) }
{
    let node = entry.node.get();
    if let Act::Print { value } = entry.act {
        writeln!(out, "print {node} {value}")?;
    }
    Ok(())
}

/// A line for each print.
pub fn add_prints(out: &mut Text, journal: &[Entry]) -> Result<(), Memory>
    ensures { OnOk result (out.new ≡ out.old ++ flat_map print_line journal.now) }
{
    for entry in journal {
        add_print(out, entry)?;
    }
    Ok(())
}

fn add_fault(out: &mut Text, names: &Names, store: bool, block: BlockId) -> Result<(), Memory>
    ensures { OnOk result (out.new ≡ out.old ++ spaced (act_words names.now.protocol.now (act.Fault store block))) }
{
    let (fault, block) = (fault_text(store), block.get());
    write!(out, " fault {fault} block {block}")
}

fn add_redelivered(
    out: &mut Text,
    names: &Names,
    kind: Kind,
    block: BlockId,
    from: NodeId,
) -> Result<(), Memory>
    ensures { OnOk result (out.new ≡ out.old ++ spaced (act_words names.now.protocol.now (act.Redelivered kind block from))) }
{
    let (block, from) = (block.get(), from.get());
    out.add(b" redeliver ")?;
    out.add(names.kind(kind))?;
    write!(out, " block {block} from {from}")
}

fn add_delivered(
    out: &mut Text,
    names: &Names,
    kind: Kind,
    block: BlockId,
    from: NodeId,
    chan: Chan,
    number: u64,
) -> Result<(), Memory>
    ensures { OnOk result
        (out.new ≡ out.old ++ spaced (act_words names.now.protocol.now (act.Delivered kind block from chan number))) }
{
    let (block, from, chan) = (block.get(), from.get(), chan_text(chan));
    out.add(b" deliver ")?;
    out.add(names.kind(kind))?;
    write!(
        out,
        " block {block} from {from} channel {chan} number {number}"
    )
}

// What an event did.
fn add_act(out: &mut Text, names: &Names, act: Act) -> Result<(), Memory>
    ensures { OnOk result (out.new ≡ out.old ++ spaced (act_words names.now.protocol.now act)) }
{
    match act {
        Act::Load { address, value } => write!(out, " ld {address} {value}"),
        Act::Store { address, value } => write!(out, " st {address} {value}"),
        Act::Faa {
            address,
            value,
            sum,
        } => write!(out, " faa {address} {value} {sum}"),
        Act::Print { value } => write!(out, " print {value}"),
        Act::Halt => out.add(b" halt"),
        Act::Trapped { why } => {
            let trap = trap_text(why);
            write!(out, " trap {trap}")
        }
        Act::Step => out.add(b" step"),
        Act::Fault { store, block } => add_fault(out, names, store, block),
        Act::Redelivered { kind, block, from } => add_redelivered(out, names, kind, block, from),
        Act::Delivered {
            kind,
            block,
            from,
            chan,
            number,
        } => add_delivered(out, names, kind, block, from, chan, number),
    }
}

// What a handler left.
fn add_after(out: &mut Text, names: &Names, sends: u16, after: Option<After>) -> Result<(), Memory>
    ensures { OnOk result (out.new ≡ out.old ++ spaced (after_words names.now.protocol.now sends after)) }
{
    if let Some(after) = after {
        let tag = tag_text(after.tag);
        write!(out, " sends {sends} state ")?;
        out.add(names.state(after.state))?;
        write!(out, " tag {tag}")?;
        add_failure(out, names, after.end)?;
    }
    Ok(())
}

fn add_event(out: &mut Text, names: &Names, event: usize, entry: &Entry) -> Result<(), Memory>
    ensures { OnOk result (out.new ≡ out.old ++ event_line names.now.protocol.now (event, entry.now)) }
{
    let (stamp, node) = (entry.stamp, entry.node.get());
    write!(out, "event {event} stamp {stamp} node {node}")?;
    add_act(out, names, entry.act)?;
    add_after(out, names, entry.sends, entry.after)?;
    out.add(b"\n")
}

/// A line for each event.
pub fn add_events(out: &mut Text, names: &Names, journal: &[Entry]) -> Result<(), Memory>
    ensures { OnOk result (out.new ≡ out.old ++ flat_map (event_line names.now.protocol.now) (enumerate_from 0 journal.now)) }
{
    for (event, entry) in journal.iter().enumerate() {
        add_event(out, names, event, entry)?;
    }
    Ok(())
}
