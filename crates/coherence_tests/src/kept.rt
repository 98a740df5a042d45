use crate::broken::is_another;
use crate::reading::{make, setup, verdict};
use driven_rows::{
    A_READER_WRITES, A_READER_WRITES_EVENTS, COPY_KEPT, COPY_KEPT_EVENTS, DEFERRED,
    DEFERRED_EVENTS, LAPSED, LAPSED_EVENTS, TWO_RESTS, TWO_RESTS_EVENTS, WRITERS, WRITERS_EVENTS,
};
use dsm_model::Global;
use stache_check::Directory;
use stache_d_protocol::stache_d;
use stache_l_protocol::stache_l;
use stache_protocol::stache;
use std::alloc;
use std::process::Abort;
use std::test::Fail;
use teapot_tree::Checked;
use tw_base::{Listed, Memory};

// The protocol by its name.
fn protocol(alloc: alloc::Global, directory: Directory) -> Result<Checked, Memory> {
    match directory {
        Directory::Stache => stache(alloc),
        Directory::StacheD => stache_d(alloc),
        Directory::StacheL => stache_l(alloc),
    }
}

// The state is coherent at the start and after each of so many events.
fn stays_coherent(
    rt: &impl Abort,
    alloc: alloc::Global,
    directory: Directory,
    text: &str,
    events: &str,
    due: usize,
) -> Result<(), Fail> {
    let setup = setup(alloc, text, protocol(alloc, directory)?)?;
    let mut g = Global::new(alloc, &setup)?;
    let mut entries = Listed::new(alloc);
    assert!(rt; verdict(directory, &g).is_ok());
    for row in events.split('\n') {
        if row.starts_with("W") {
            continue;
        }
        let (asked, due) = row.split_once(": ").unwrap_or((row, "made"));
        let made = make(alloc, &mut g, asked, &mut entries)?;
        assert!(rt; made.as_str() == due, "at {row}");
        assert!(rt; verdict(directory, &g).is_ok(), "after {row}");
    }
    assert!(rt; entries.len() == due);
    Ok(())
}

const RUNS: [(&str, &str, usize); 4] = [
    (WRITERS, WRITERS_EVENTS, 26),
    (DEFERRED, DEFERRED_EVENTS, 20),
    (LAPSED, LAPSED_EVENTS, 8),
    (TWO_RESTS, TWO_RESTS_EVENTS, 22),
];

#[test]
fn runs_under_stache_are_coherent(rt: HostRuntime) -> Result<(), Fail> {
    let alloc = rt.alloc();
    for (text, events, due) in RUNS {
        stays_coherent(&rt, alloc, Directory::Stache, text, events, due)?;
    }
    Ok(())
}

#[test]
fn a_run_under_stache_d_is_coherent(rt: HostRuntime) -> Result<(), Fail> {
    let alloc = rt.alloc();
    let own = Directory::StacheD;
    stays_coherent(&rt, alloc, own, COPY_KEPT, COPY_KEPT_EVENTS, 16)
}

#[test]
fn a_run_under_stache_l_is_coherent(rt: HostRuntime) -> Result<(), Fail> {
    let alloc = rt.alloc();
    let own = Directory::StacheL;
    stays_coherent(&rt, alloc, own, A_READER_WRITES, A_READER_WRITES_EVENTS, 25)
}

#[test]
fn each_protocol_is_decided_alone(rt: HostRuntime) -> Result<(), Fail> {
    let alloc = rt.alloc();
    let setup = setup(alloc, A_READER_WRITES, stache_l(alloc)?)?;
    let g = Global::new(alloc, &setup)?;
    is_another(&rt, Directory::Stache, &g);
    is_another(&rt, Directory::StacheD, &g);
    assert!(rt; verdict(Directory::StacheL, &g).is_ok());
    Ok(())
}
