use dsm_model::Setup;
use journal_tools::{
    AuditError, Printed, audit, audit_text, denied_text, read_report, replay, replay_text,
};
use stache_protocol::stache;
use std::alloc::Global;
use std::fmt::Write;
use std::test::Fail;
use tempest_input::settings_in;
use tw_lex::lines;

const INPUT: &str = "tempest 1\n\
nodes 2\n\
words 1\n\
blocks 2\n\
program 0\n\
li r1 1\n\
st r1 r0 0\n\
ld r2 r0 1\n\
print r2\n\
halt\n\
end\n\
program 1\n\
li r1 1\n\
st r1 r0 1\n\
ld r2 r0 0\n\
print r2\n\
halt\n\
end\n";

// Its first line is line 20, behind the input and a line `report`.
const REPORT: &str = "tempest report 1 nodes 2 words 1 blocks 2 budget 4000\n\
print 0 1\n\
print 1 1\n\
word 0 1\n\
word 1 1\n\
register 0 1 1\n\
register 0 2 1\n\
register 1 1 1\n\
register 1 2 1\n\
node 0 halted place 4 instructions 6 handlers 2\n\
node 1 halted place 4 instructions 6 handlers 2\n\
event 0 stamp 1 node 0 step\n\
event 1 stamp 2 node 0 st 0 1\n\
event 2 stamp 3 node 0 fault RD_FAULT block 1 sends 1 state Cache_Wait_RO tag Invalid\n\
event 3 stamp 1 node 1 step\n\
event 4 stamp 2 node 1 st 1 1\n\
event 5 stamp 3 node 1 fault RD_FAULT block 0 sends 1 state Cache_Wait_RO tag Invalid\n\
event 6 stamp 4 node 0 deliver GET_RO block 0 from 1 channel 0 number 0 sends 1 state Home_RO tag ReadOnly\n\
event 7 stamp 4 node 1 deliver GET_RO block 1 from 0 channel 0 number 0 sends 1 state Home_RO tag ReadOnly\n\
event 8 stamp 5 node 0 deliver DATA_RO block 1 from 1 channel 1 number 0 sends 0 state Cache_RO tag ReadOnly\n\
event 9 stamp 6 node 0 ld 1 1\n\
event 10 stamp 7 node 0 print 1\n\
event 11 stamp 8 node 0 halt\n\
event 12 stamp 5 node 1 deliver DATA_RO block 0 from 0 channel 1 number 0 sends 0 state Cache_RO tag ReadOnly\n\
event 13 stamp 6 node 1 ld 0 1\n\
event 14 stamp 7 node 1 print 1\n\
event 15 stamp 8 node 1 halt\n\
history agrees\n\
end\n";

const FIRST: usize = 20;

fn setup(alloc: Global) -> Result<Setup, Fail> {
    let settings = settings_in(alloc, INPUT.as_bytes())?;
    let version = settings.version();
    let (shape, init, programs, _) = settings.into_parts();
    Ok(Setup::new(version, shape, init, programs, stache(alloc)?))
}

// The whole text, in which a line of the report says something else.
fn text_with(alloc: Global, line: usize, said: &str) -> Result<String, Fail> {
    let mut text = String::from_str(alloc, INPUT)?;
    text.push_str("report\n")?;
    for (at, own) in REPORT.lines().enumerate() {
        let said = if at.saturating_add(FIRST) == line {
            said
        } else {
            own
        };
        writeln!(text, "{said}")?;
    }
    Ok(text)
}

fn printed(alloc: Global, setup: &Setup, text: &str) -> Result<Result<Printed, AuditError>, Fail> {
    if text.len() > 4096 {
        return Err("too long".into());
    }
    let found = lines(alloc, text.as_bytes())?;
    let after = found.all.saturating_add(1);
    let all = found.list.items();
    if all.len() < FIRST - 1 {
        return Err("too short".into());
    }
    let (_, behind) = all.split_at(FIRST - 1);
    Ok(read_report(alloc, setup, behind, after))
}

fn denied(alloc: Global, error: AuditError) -> Result<Vec<u8>, Fail> {
    match error {
        AuditError::Denied { line, rule } => Ok(denied_text(alloc, line, rule)?),
        AuditError::Memory => Err("out of memory".into()),
    }
}

// What `audit` writes.
fn audited(alloc: Global, text: &str) -> Result<Vec<u8>, Fail> {
    let setup = setup(alloc)?;
    let report = match printed(alloc, &setup, text)? {
        Ok(report) => report,
        Err(error) => return denied(alloc, error),
    };
    match audit(alloc, &setup, &report) {
        Ok(audited) => Ok(audit_text(alloc, audited)?),
        Err(error) => denied(alloc, error),
    }
}

// What `replay` writes.
fn replayed(alloc: Global, text: &str, k: u32) -> Result<Vec<u8>, Fail> {
    let setup = setup(alloc)?;
    let report = match printed(alloc, &setup, text)? {
        Ok(report) => report,
        Err(error) => return denied(alloc, error),
    };
    match replay(alloc, &setup, &report, k) {
        Ok(g) => Ok(replay_text(alloc, &g, k, report.events.len())?),
        Err(error) => denied(alloc, error),
    }
}

#[test]
fn the_report_is_explained(rt: HostRuntime) -> Result<(), Fail> {
    let alloc = rt.alloc();
    let text = text_with(alloc, 0, "")?;
    let found = audited(alloc, text.as_str())?;
    assert_eq!(rt;
        found.as_slice(),
        b"audit yes events 16 completed 10\n".as_slice()
    );
    Ok(())
}

// A line, what it says instead, and how `audit` denies the report.
const DENIED: [(usize, &str, &str); 12] = [
    (21, "print 0 0", "denied line 21 WrongPrint\n"),
    (22, "", "denied line 23 WrongPrint\n"),
    (24, "word 1 2", "denied line 24 WrongWord\n"),
    (24, "", "denied line 25 WrongWord\n"),
    (28, "register 1 3 1", "denied line 28 WrongRegister\n"),
    (28, "", "denied line 29 WrongRegister\n"),
    (
        29,
        "node 0 halted place 3 instructions 6 handlers 2",
        "denied line 29 WrongNode\n",
    ),
    (
        30,
        "node 1 stuck place 4 instructions 6 handlers 2",
        "denied line 30 WrongNode\n",
    ),
    (
        40,
        "event 9 stamp 6 node 0 ld 1 0",
        "denied line 40 WrongAct\n",
    ),
    (
        46,
        "event 15 stamp 8 node 0 step",
        "denied line 46 WrongAct\n",
    ),
    (
        47,
        "history broken event 9 node 0 address 1 read 1 due 0",
        "denied line 47 WrongHistory\n",
    ),
    (
        31,
        "event 1 stamp 1 node 0 step",
        "denied line 31 BadNumber\n",
    ),
];

#[test]
fn other_reports_are_denied(rt: HostRuntime) -> Result<(), Fail> {
    let alloc = rt.alloc();
    for (line, said, expected) in DENIED {
        let text = text_with(alloc, line, said)?;
        let found = audited(alloc, text.as_str())?;
        assert_eq!(rt; found.as_slice(), expected.as_bytes());
    }
    Ok(())
}

const THIRD: &str = "replay 3 of 16\n\
node 0 blocked place 2 clock 3 instructions 3 handlers 0 sent 1\n\
node 1 running place 0 clock 0 instructions 0 handlers 0 sent 0\n\
block 0 0 state Home_RW tag ReadWrite depth 0 deferred 0\n\
block 0 1 state Cache_Wait_RO tag Invalid depth 1 deferred 0\n\
block 1 0 state Cache_Inv tag Invalid depth 0 deferred 0\n\
block 1 1 state Home_RW tag ReadWrite depth 0 deferred 0\n\
wire 0 1 0 held 1\n\
end\n";

#[test]
fn three_events_are_replayed(rt: HostRuntime) -> Result<(), Fail> {
    let alloc = rt.alloc();
    let text = text_with(alloc, 0, "")?;
    let found = replayed(alloc, text.as_str(), 3)?;
    assert_eq!(rt; found.as_slice(), THIRD.as_bytes());
    Ok(())
}

// A line, what it says instead, how many events are made, and how `replay` denies the report.
const NOT_REPLAYED: [(usize, &str, u32, &str); 5] = [
    (0, "", 17, "denied line 47 TooFew\n"),
    (
        33,
        "event 2 stamp 3 node 0 fault RD_FAULT block 1 sends 2 state Cache_Wait_RO tag Invalid",
        16,
        "denied line 33 OtherEntry\n",
    ),
    (
        34,
        "event 3 stamp 1 node 0 step",
        4,
        "denied line 34 NotEnabled\n",
    ),
    (
        37,
        "event 6 stamp 4 node 0 deliver GET_RO block 0 from 1 channel 1 number 0 sends 1 state Home_RO tag ReadOnly",
        7,
        "denied line 37 NotEnabled\n",
    ),
    (
        31,
        "event 0 stamp 1 node 0 halt",
        1,
        "denied line 31 OtherEntry\n",
    ),
];

#[test]
fn other_reports_are_not_replayed(rt: HostRuntime) -> Result<(), Fail> {
    let alloc = rt.alloc();
    for (line, said, k, expected) in NOT_REPLAYED {
        let text = text_with(alloc, line, said)?;
        let found = replayed(alloc, text.as_str(), k)?;
        assert_eq!(rt; found.as_slice(), expected.as_bytes());
    }
    Ok(())
}
