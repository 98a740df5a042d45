ghost use Rattle.dsm_model.specs.Globals.{setup_of, world_of};
ghost use Rattle.dsm_runs.specs.Worlds.{IsEnabled};

use crate::rows::{event_of, wire_line, wire_of};
use driven_rows::{
    A_READER_WRITES, A_READER_WRITES_EVENTS, A_READER_WRITES_REPORT, COPY_KEPT, COPY_KEPT_EVENTS,
    COPY_KEPT_REPORT, DEFERRED, DEFERRED_EVENTS, DEFERRED_REPORT, HOME_READS, HOME_READS_REPORT,
    HOME_READS_REPORT_D, LAPSED, LAPSED_EVENTS, LAPSED_REPORT, READERS, READERS_OF_L, TWO_RESTS,
    TWO_RESTS_EVENTS, TWO_RESTS_REPORT, WRITERS, WRITERS_EVENTS, WRITERS_REPORT,
};
use dsm_model::{Global, Setup, enabled, settle, step};
use journal::{Break, Options, finals_of, first_break, report, words_of};
use mini_asm::Flat;
use printed_text::Names;
use stache_d_protocol::stache_d;
use stache_l_protocol::stache_l;
use stache_protocol::stache;
use std::alloc;
use std::process::Abort;
use std::test::Fail;
use teapot_tree::Checked;
use tempest_input::settings_in;
use tw_base::{Entry, Event, Listed};

// A machine, the rows that drive it, and its report, with the events if these are due.
struct Driven {
    text: &'static str,
    rows: &'static str,
    report: &'static str,
    journal: bool,
}

static UNDER_STACHE: [Driven; 4] = [
    Driven {
        text: WRITERS,
        rows: WRITERS_EVENTS,
        report: WRITERS_REPORT,
        journal: true,
    },
    Driven {
        text: DEFERRED,
        rows: DEFERRED_EVENTS,
        report: DEFERRED_REPORT,
        journal: true,
    },
    Driven {
        text: LAPSED,
        rows: LAPSED_EVENTS,
        report: LAPSED_REPORT,
        journal: true,
    },
    Driven {
        text: TWO_RESTS,
        rows: TWO_RESTS_EVENTS,
        report: TWO_RESTS_REPORT,
        journal: true,
    },
];

static UNDER_STACHE_D: Driven = Driven {
    text: COPY_KEPT,
    rows: COPY_KEPT_EVENTS,
    report: COPY_KEPT_REPORT,
    journal: true,
};

static UNDER_STACHE_L: Driven = Driven {
    text: A_READER_WRITES,
    rows: A_READER_WRITES_EVENTS,
    report: A_READER_WRITES_REPORT,
    journal: false,
};

// What a text sets up, under a protocol.
fn setup(alloc: alloc::Global, text: &str, protocol: Checked) -> Result<Setup, Fail> {
    if text.len() > 1000 {
        return Err(Fail::new("a text that is too long"));
    }
    let settings = settings_in(alloc, text.as_bytes())?;
    let version = settings.version();
    let (shape, init, programs, _) = settings.into_parts();
    Ok(Setup::new(version, shape, init, programs, protocol))
}

fn push_entry(entries: &mut Listed<Entry>, entry: Entry) -> Result<(), Fail> {
    let _parts = (entry.act, entry.after);
    entries.push(entry)?;
    Ok(())
}

// Makes an event, which is enabled.
fn make(
    alloc: alloc::Global,
    g: &mut Global,
    e: Event,
    entries: &mut Listed<Entry>,
) -> Result<(), Fail>
    requires { IsEnabled (setup_of g.old) (world_of g.old) e }
{
    let entry = step(alloc, g, e)?;
    let _parts = (entry.act, entry.after);
    push_entry(entries, entry)
}

// Makes the event of a row if it is enabled, or tells what is on the wire of a row.
fn answer(
    alloc: alloc::Global,
    names: &Names,
    g: &mut Global,
    row: &str,
    entries: &mut Listed<Entry>,
) -> Result<String, Fail> {
    if let Some((from, to, chan)) = wire_of(row) {
        return wire_line(alloc, names, g, from, to, chan);
    }
    let e = event_of(row).ok_or("a row that names no event")?;
    if !enabled(g, e) {
        return Ok(String::from_str(alloc, "not enabled")?);
    }
    make(alloc, g, e, entries)?;
    Ok(String::from_str(alloc, "made")?)
}

// Answers each row, and gives the entries of the events.
fn answered(
    rt: &impl Abort,
    alloc: alloc::Global,
    g: &mut Global,
    rows: &str,
) -> Result<Listed<Entry>, Fail> {
    let names = Names::new(alloc, g.setup().protocol().protocol())?;
    let mut entries = Listed::new(alloc);
    for row in rows.split('\n') {
        let (asked, due) = row.split_once(": ").unwrap_or((row, "made"));
        let got = answer(alloc, &names, g, asked, &mut entries)?;
        assert!(rt; got.as_str() == due, "at {asked}");
    }
    Ok(entries)
}

// The first read that a history breaks at.
fn break_of(alloc: alloc::Global, setup: &Setup, entries: &[Entry]) -> Result<Option<Break>, Fail> {
    if entries.len() > 1000 {
        return Err(Fail::new("too many entries"));
    }
    let mut flat = Flat::new(alloc, setup.shape(), setup.init(), setup.programs())?;
    Ok(first_break(&mut flat, entries))
}

// The report of a run, with its events if they are asked for.
fn told(
    alloc: alloc::Global,
    g: &Global,
    entries: &[Entry],
    journal: bool,
) -> Result<Vec<u8>, Fail> {
    let broken = break_of(alloc, g.setup(), entries)?;
    let finals = finals_of(alloc, g)?;
    let words = words_of(alloc, g)?;
    let options = Options {
        journal,
        counts: false,
    };
    let (finals, words) = (finals.items(), words.items());
    Ok(report(alloc, g.setup(), entries, finals, words, broken, options)?)
}

// The rows are answered as they say, no event is enabled after them, and the report is the one that is due. Tells how many
// events are made.
fn is_driven(
    rt: &impl Abort,
    alloc: alloc::Global,
    protocol: Checked,
    driven: &Driven,
) -> Result<usize, Fail> {
    let setup = setup(alloc, driven.text, protocol)?;
    let mut g = Global::new(alloc, &setup)?;
    let entries = answered(rt, alloc, &mut g, driven.rows)?;
    assert!(rt; settle(alloc, &mut g, 0)?.is_empty());
    let got = told(alloc, &g, entries.items(), driven.journal)?;
    assert!(rt; got.as_slice() == driven.report.as_bytes());
    Ok(entries.len())
}

#[test]
fn events_are_made(rt: HostRuntime) -> Result<(), Fail> {
    for driven in &UNDER_STACHE {
        let protocol = stache(rt.alloc())?;
        let _made = is_driven(&rt, rt.alloc(), protocol, driven)?;
    }
    Ok(())
}

#[test]
fn an_owner_keeps_its_copy_for_a_reader(rt: HostRuntime) -> Result<(), Fail> {
    let protocol = stache_d(rt.alloc())?;
    let _made = is_driven(&rt, rt.alloc(), protocol, &UNDER_STACHE_D)?;
    Ok(())
}

// Under Stache_L a reader that meets two sharers has one copy invalidated.
#[test]
fn two_share_at_most(rt: HostRuntime) -> Result<(), Fail> {
    let protocol = stache_l(rt.alloc())?;
    let made = is_driven(&rt, rt.alloc(), protocol, &UNDER_STACHE_L)?;
    assert_eq!(rt; made, 25);
    Ok(())
}

// The serial run has this report.
fn is_reported(
    rt: &impl Abort,
    alloc: alloc::Global,
    protocol: Checked,
    text: &str,
    due: &str,
) -> Result<(), Fail> {
    let setup = setup(alloc, text, protocol)?;
    let mut g = Global::new(alloc, &setup)?;
    let entries = settle(alloc, &mut g, 0)?;
    let got = told(alloc, &g, entries.items(), false)?;
    assert!(rt; got.as_slice() == due.as_bytes());
    Ok(())
}

#[test]
fn a_home_reads_under_both_protocols(rt: HostRuntime) -> Result<(), Fail> {
    let alloc = rt.alloc();
    is_reported(&rt, alloc, stache(alloc)?, HOME_READS, HOME_READS_REPORT)?;
    is_reported(
        &rt,
        alloc,
        stache_d(alloc)?,
        HOME_READS,
        HOME_READS_REPORT_D,
    )
}

// In the first schedule, too.
#[test]
fn a_third_reader_takes_a_copy(rt: HostRuntime) -> Result<(), Fail> {
    let alloc = rt.alloc();
    is_reported(&rt, alloc, stache_l(alloc)?, READERS, READERS_OF_L)
}
