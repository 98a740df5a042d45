ghost use Rattle.std.specs.Prelude.{◌^◌, ◌<◌, length};
ghost use Rattle.compiled_meaning.specs.Whole.{IsCode};

use crate::events::events;
use crate::setups::{code, setup};
use crate::telling::{are_all, told};
use driven_rows::{
    DEFERRED, DEFERRED_EVENTS, DEFERRED_REPORT, LAPSED, LAPSED_EVENTS, LAPSED_REPORT, TWO_RESTS,
    TWO_RESTS_COUNTS, TWO_RESTS_EVENTS, TWO_RESTS_REPORT, WRITERS, WRITERS_EVENTS, WRITERS_REPORT,
};
use dsm_runs::Setup;
use handler_code::Code;
use journal::Options;
use std::alloc::Global;
use std::process::Abort;
use std::test::Fail;
use still_nodes::{Gathered, Still};
use teapot_samples::STACHE;
use tw_base::Event;

/// A machine, its rows of events, and its report with the events.
struct Driven {
    machine: &'static str,
    rows: &'static str,
    report: &'static str,
    // how many events are made as far as they are enabled, with those among them that are not; and how many of the rest
    first: u32,
    rest: u32,
}

static WRITE_A_WORD_OF_A_THIRD: Driven = Driven {
    machine: WRITERS,
    rows: WRITERS_EVENTS,
    report: WRITERS_REPORT,
    first: 18,
    rest: 8,
};

static A_FAULT_OF_THE_HOME_IS_DEFERRED: Driven = Driven {
    machine: DEFERRED,
    rows: DEFERRED_EVENTS,
    report: DEFERRED_REPORT,
    first: 10,
    rest: 10,
};

static A_SPENT_NODE_SERVES_OTHERS: Driven = Driven {
    machine: LAPSED,
    rows: LAPSED_EVENTS,
    report: LAPSED_REPORT,
    first: 6,
    rest: 2,
};

static A_HOME_SUSPENDS_HANDLERS_OF_TWO_BLOCKS: Driven = Driven {
    machine: TWO_RESTS,
    rows: TWO_RESTS_EVENTS,
    report: TWO_RESTS_REPORT,
    first: 22,
    rest: 0,
};

/// Makes these events as far as they are enabled, and tells how many.
fn drive(alloc: Global, still: &mut Still<'_>, events: &[Event]) -> Result<u32, Fail> {
    if events.len() > 1000 {
        return Err(Fail::new("too many events"));
    }
    Ok(still.drive(alloc, events)?)
}

/// How many events are made with those that are not enabled among them, and how many of the rest of those that are enabled.
fn stops(
    alloc: Global,
    setup: &Setup,
    code: &Code,
    rows: &str,
    first: u32,
) -> Result<(u32, u32), Fail>
    requires code { IsCode setup.now.protocol code.now }
    requires short { length code.now.ops < 2 ^ 22 }
{
    let all = events(alloc, rows, true)?;
    let made = events(alloc, rows, false)?;
    let later = made.get(first as usize..).ok_or("too few events")?;
    let mut still = Still::new(alloc, setup, code)?;
    let before = drive(alloc, &mut still, &all)?;
    let after = drive(alloc, &mut still, later)?;
    Ok((before, after))
}

/// What is gathered after these events, as many as are due, after which none is enabled.
fn ends(
    alloc: Global,
    setup: &Setup,
    code: &Code,
    events: &[Event],
    due: u32,
) -> Result<Gathered, Fail>
    requires code { IsCode setup.now.protocol code.now }
    requires short { length code.now.ops < 2 ^ 22 }
{
    let mut still = Still::new(alloc, setup, code)?;
    if drive(alloc, &mut still, events)? != due {
        return Err(Fail::new("other events are made"));
    }
    still.settle(alloc, 0)?;
    Ok(still.gather(alloc)?)
}

/// The nodes make the events of the rows and no others, and tell the report.
fn tells(
    rt: &impl Abort,
    alloc: Global,
    setup: &Setup,
    code: &Code,
    driven: &Driven,
) -> Result<Gathered, Fail>
    requires code { IsCode setup.now.protocol code.now }
    requires short { length code.now.ops < 2 ^ 22 }
{
    let events = events(alloc, driven.rows, false)?;
    let due = driven.first.saturating_add(driven.rest);
    let gathered = ends(alloc, setup, code, &events, due)?;
    assert_eq!(rt; gathered.taken.len(), events.len());
    assert!(rt; are_all(&gathered));
    let options = Options {
        journal: true,
        counts: false,
    };
    let report = told(alloc, setup, &gathered, options)?;
    assert!(rt; report.as_slice() == driven.report.as_bytes());
    Ok(gathered)
}

fn are_driven(rt: &impl Abort, alloc: Global, driven: &Driven) -> Result<(), Fail> {
    let setup = setup(alloc, driven.machine, STACHE)?;
    let code = code(alloc, &setup)?;
    let (before, after) = stops(alloc, &setup, &code, driven.rows, driven.first)?;
    assert_eq!(rt; before, driven.first);
    assert_eq!(rt; after, driven.rest);
    let _gathered = tells(rt, alloc, &setup, &code, driven)?;
    Ok(())
}

#[test]
fn two_nodes_write_a_word_of_a_third(rt: HostRuntime) -> Result<(), Fail> {
    are_driven(&rt, rt.alloc(), &WRITE_A_WORD_OF_A_THIRD)
}

#[test]
fn a_fault_of_the_home_is_deferred(rt: HostRuntime) -> Result<(), Fail> {
    are_driven(&rt, rt.alloc(), &A_FAULT_OF_THE_HOME_IS_DEFERRED)
}

#[test]
fn a_node_that_is_spent_serves_others(rt: HostRuntime) -> Result<(), Fail> {
    are_driven(&rt, rt.alloc(), &A_SPENT_NODE_SERVES_OTHERS)
}

#[test]
fn a_home_suspends_handlers_of_two_blocks(rt: HostRuntime) -> Result<(), Fail> {
    let alloc = rt.alloc();
    let driven = &A_HOME_SUSPENDS_HANDLERS_OF_TWO_BLOCKS;
    let setup = setup(alloc, driven.machine, STACHE)?;
    let code = code(alloc, &setup)?;
    let gathered = tells(&rt, alloc, &setup, &code, driven)?;
    let options = Options {
        journal: false,
        counts: true,
    };
    let report = told(alloc, &setup, &gathered, options)?;
    assert!(rt; report.as_slice() == TWO_RESTS_COUNTS.as_bytes());
    Ok(())
}
