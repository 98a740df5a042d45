ghost use Rattle.dsm_model.specs.Globals.{setup_of, world_of};
ghost use Rattle.dsm_runs.specs.Worlds.{IsEnabled};

use coherence_check::{Broken, coherent, coherent_d, coherent_l};
use dsm_model::{Global, Setup, enabled, step};
use stache_check::Directory;
use std::alloc;
use std::test::Fail;
use teapot_check::check;
use teapot_parse::{parse, read_trees_are_given, texts_have_text_lines};
use teapot_tree::Checked;
use tempest_input::settings_in;
use tw_base::{Chan, Entry, Event, Listed, NodeId};
use tw_lex::lines;

/// The protocol of a text.
pub fn protocol(alloc: alloc::Global, text: &[u8]) -> Result<Checked, Fail> {
    if text.len() > 1 << 20 {
        return Err(Fail::new("a protocol that is too long"));
    }
    texts_have_text_lines();
    read_trees_are_given();
    let found = lines(alloc, text)?;
    let protocol = parse(alloc, found.list, found.all)?;
    Ok(check(alloc, protocol)?)
}

/// Whether a state is coherent under a protocol.
pub fn verdict(directory: Directory, g: &Global) -> Result<(), Broken> {
    match directory {
        Directory::Stache => coherent(g.setup(), g),
        Directory::StacheD => coherent_d(g.setup(), g),
        Directory::StacheL => coherent_l(g.setup(), g),
    }
}

/// What a text sets up, under a protocol.
pub fn setup(alloc: alloc::Global, text: &str, protocol: Checked) -> Result<Setup, Fail> {
    if text.len() > 1000 {
        return Err(Fail::new("a text that is too long"));
    }
    let settings = settings_in(alloc, text.as_bytes())?;
    let version = settings.version();
    let (shape, init, programs, _) = settings.into_parts();
    Ok(Setup::new(version, shape, init, programs, protocol))
}

fn node(word: &str) -> Option<NodeId> {
    NodeId::new(word.as_bytes().first()?.checked_sub(b'0')?)
}

fn chan(word: &str) -> Chan {
    if word == "0" { Chan::Zero } else { Chan::One }
}

// The event that words such as `I 0`, `R 2` and `D 2 0 1` name.
fn event_of(text: &str) -> Option<Event> {
    let mut words = text.split(' ');
    match words.next()? {
        "I" => Some(Event::Instr(node(words.next()?)?)),
        "R" => Some(Event::Redeliver(node(words.next()?)?)),
        "D" => Some(Event::Deliver {
            at: node(words.next()?)?,
            from: node(words.next()?)?,
            chan: chan(words.next()?),
        }),
        _ => None,
    }
}

fn push_entry(entries: &mut Listed<Entry>, entry: Entry) -> Result<(), Fail> {
    let _parts = (entry.act, entry.after);
    entries.push(entry)?;
    Ok(())
}

// Makes an event, which is enabled.
fn go(
    alloc: alloc::Global,
    g: &mut Global,
    e: Event,
    entries: &mut Listed<Entry>,
) -> Result<(), Fail>
    requires { IsEnabled (setup_of g.old) (world_of g.old) e }
{
    let entry = step(alloc, g, e)?;
    let _parts = (entry.act, entry.after);
    push_entry(entries, entry)
}

/// Makes the event that words such as `I 0`, `R 2` and `D 2 0 1` name, if it is enabled: an instruction, a redelivery, or
/// a delivery at node 2 from node 0 on channel 1. Its entry is pushed. It says which of both it did.
pub fn make(
    alloc: alloc::Global,
    g: &mut Global,
    row: &str,
    entries: &mut Listed<Entry>,
) -> Result<String, Fail> {
    let e = event_of(row).ok_or("a row that names no event")?;
    if !enabled(g, e) {
        return Ok(String::from_str(alloc, "not enabled")?);
    }
    go(alloc, g, e, entries)?;
    Ok(String::from_str(alloc, "made")?)
}
