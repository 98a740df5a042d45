//! Reports on trial: `audit` and `replay`, on reports that stand and on reports with one line changed.

use crate::asking::expect;
use crate::cases::expect_all;
use std::alloc::Global;
use std::process::Abort;
use std::test::Fail;
use tempest_run::Status;

// Reports that stand, or that are denied as they are.
const TRIALS: &str = "<BOTH>
report
tempest report 1 nodes 2 words 1 blocks 2 budget 4000
print 0 1
print 1 1
word 0 1
word 1 1
register 0 1 1
register 0 2 1
register 1 1 1
register 1 2 1
node 0 halted place 4 instructions 6 handlers 2
node 1 halted place 4 instructions 6 handlers 2
event 0 stamp 1 node 0 step
event 1 stamp 2 node 0 st 0 1
event 2 stamp 3 node 0 fault RD_FAULT block 1 sends 1 state Cache_Wait_RO tag Invalid
event 3 stamp 1 node 1 step
event 4 stamp 2 node 1 st 1 1
event 5 stamp 3 node 1 fault RD_FAULT block 0 sends 1 state Cache_Wait_RO tag Invalid
event 6 stamp 4 node 0 deliver GET_RO block 0 from 1 channel 0 number 0 sends 1 state Home_RO tag ReadOnly
event 7 stamp 4 node 1 deliver GET_RO block 1 from 0 channel 0 number 0 sends 1 state Home_RO tag ReadOnly
event 8 stamp 5 node 0 deliver DATA_RO block 1 from 1 channel 1 number 0 sends 0 state Cache_RO tag ReadOnly
event 9 stamp 6 node 0 ld 1 1
event 10 stamp 7 node 0 print 1
event 11 stamp 8 node 0 halt
event 12 stamp 5 node 1 deliver DATA_RO block 0 from 0 channel 1 number 0 sends 0 state Cache_RO tag ReadOnly
event 13 stamp 6 node 1 ld 0 1
event 14 stamp 7 node 1 print 1
event 15 stamp 8 node 1 halt
history agrees
end
=> audit : Done
audit yes events 16 completed 10
=> replay 3 : Done
replay 3 of 16
node 0 blocked place 2 clock 3 instructions 3 handlers 0 sent 1
node 1 running place 0 clock 0 instructions 0 handlers 0 sent 0
block 0 0 state Home_RW tag ReadWrite depth 0 deferred 0
block 0 1 state Cache_Wait_RO tag Invalid depth 1 deferred 0
block 1 0 state Cache_Inv tag Invalid depth 0 deferred 0
block 1 1 state Home_RW tag ReadWrite depth 0 deferred 0
wire 0 1 0 held 1
end
=> replay 17 : Denied
denied line 47 TooFew
%%
tempest 1
nodes 2
words 1
blocks 2
program 0
li r1 7
st r1 r0 1
ld r2 r0 1
halt
end
program 1
ld r3 r0 0
ld r4 r0 1
halt
end
protocol
<DOUBLE>
end
report
tempest report 1 nodes 2 words 1 blocks 2 budget 4000
word 1 7
register 0 1 7
register 0 2 7
node 0 halted place 3 instructions 5 handlers 2
node 1 halted place 2 instructions 4 handlers 2
event 0 stamp 1 node 0 step
event 1 stamp 2 node 0 fault WR_FAULT block 1 sends 1 state I tag Invalid
event 2 stamp 1 node 1 fault RD_FAULT block 0 sends 1 state I tag Invalid
event 3 stamp 3 node 0 deliver GET block 0 from 1 channel 0 number 0 sends 1 state H tag ReadWrite
event 4 stamp 3 node 1 deliver GET block 1 from 0 channel 0 number 0 sends 1 state H tag ReadWrite
event 5 stamp 4 node 0 deliver DATA block 1 from 1 channel 1 number 0 sends 0 state I tag ReadWrite
event 6 stamp 5 node 0 st 1 7
event 7 stamp 6 node 0 ld 1 7
event 8 stamp 7 node 0 halt
event 9 stamp 4 node 1 deliver DATA block 0 from 0 channel 1 number 0 sends 0 state I tag ReadWrite
event 10 stamp 5 node 1 ld 0 0
event 11 stamp 6 node 1 ld 1 0
event 12 stamp 7 node 1 halt
history broken event 11 node 1 address 1 read 0 due 7
end
=> audit : Denied
denied line 73 WrongAct
%%
<BOTH>
=> audit : Refused
refused line 19 BadLine
=> replay 0 : Refused
refused line 19 BadLine
%%
<BOTH>
report
=> serial 0 : Refused
refused line 19 BadLine
=> audit : Denied
denied line 20 BadLine
%%
<BOTH>
report
2x
=> audit : Refused
refused line 20 BadToken
%%
tempest 1
nodes 1
words 1
blocks 1
program 2
end
report
=> audit : Refused
refused line 5 OutOfRange
";

#[test]
fn reports_stand_trial(rt: HostRuntime) -> Result<(), Fail> {
    expect_all(&rt, rt.alloc(), TRIALS)
}

// A report of one node, which stands.
const TRIED: &str = "tempest 1
nodes 1
words 1
blocks 1
program 0
li r1 5
print r1
halt
end
report
tempest report 1 nodes 1 words 1 blocks 1 budget 4000
print 0 5
register 0 1 5
node 0 halted place 2 instructions 3 handlers 0
event 0 stamp 1 node 0 step
event 1 stamp 2 node 0 print 5
event 2 stamp 3 node 0 halt
history agrees
end
";

// How many lines stand before the one that is changed, that line, what is asked, and why the report is denied.
const DENIALS: [(usize, &str, &str, &str); 16] = [
    (11, "print 0 five", "audit", "denied line 12 BadLine\n"),
    (11, "print 1 5", "audit", "denied line 12 BadLine\n"),
    (18, "", "audit", "denied line 20 BadLine\n"),
    (
        15,
        "event 2 stamp 2 node 0 print 5",
        "audit",
        "denied line 16 BadNumber\n",
    ),
    (
        15,
        "event 1 stamp 2 node 0 step",
        "audit",
        "denied line 16 WrongAct\n",
    ),
    (11, "print 0 6", "audit", "denied line 12 WrongPrint\n"),
    (11, "", "audit", "denied line 13 WrongPrint\n"),
    (
        12,
        "word 0 1\nregister 0 1 5",
        "audit",
        "denied line 13 WrongWord\n",
    ),
    (
        12,
        "register 0 1 6",
        "audit",
        "denied line 13 WrongRegister\n",
    ),
    (
        13,
        "node 0 halted place 1 instructions 3 handlers 0",
        "audit",
        "denied line 14 WrongNode\n",
    ),
    (
        13,
        "node 0 halted place 2 instructions 4 handlers 0",
        "audit",
        "denied line 14 WrongNode\n",
    ),
    (
        17,
        "history broken event 1 node 0 address 0 read 0 due 1",
        "audit",
        "denied line 18 WrongHistory\n",
    ),
    (
        15,
        "event 1 stamp 2 node 0 deliver GET_RO block 0 from 0 channel 0 number 0 sends 0 state Home_RW tag ReadWrite",
        "replay 2",
        "denied line 16 NotEnabled\n",
    ),
    (
        15,
        "event 1 stamp 3 node 0 print 5",
        "replay 2",
        "denied line 16 OtherEntry\n",
    ),
    (
        15,
        "event 2 stamp 2 node 0 print 5",
        "replay 0",
        "denied line 16 BadNumber\n",
    ),
    (17, "history agrees", "replay 4", "denied line 18 TooFew\n"),
];

// The report with another line behind so many.
fn with_line(alloc: Global, before: usize, line: &str) -> Result<String, Fail> {
    let mut whole = String::new(alloc);
    for (index, old) in TRIED.lines().enumerate() {
        let new = if index == before { line } else { old };
        whole.push_str(new)?;
        whole.push_str("\n")?;
    }
    Ok(whole)
}

fn expect_denied(
    rt: &impl Abort,
    alloc: Global,
    before: usize,
    line: &str,
    asked: &str,
    written: &str,
) -> Result<(), Fail> {
    let text = with_line(alloc, before, line)?;
    expect(rt, alloc, asked, text.as_str(), Status::Denied, written)
}

#[test]
fn a_report_with_a_line_changed_is_denied(rt: HostRuntime) -> Result<(), Fail> {
    for (before, line, asked, written) in &DENIALS {
        expect_denied(&rt, rt.alloc(), *before, line, asked, written)?;
    }
    Ok(())
}

#[test]
fn what_is_not_read_is_not_denied(rt: HostRuntime) -> Result<(), Fail> {
    let stands = "audit yes events 3 completed 3\n";
    expect(&rt, rt.alloc(), "audit", TRIED, Status::Done, stands)?;
    let stamped = with_line(rt.alloc(), 15, "event 1 stamp 9 node 0 print 5")?;
    expect(
        &rt,
        rt.alloc(),
        "audit",
        stamped.as_str(),
        Status::Done,
        stands,
    )?;
    let state =
        "replay 2 of 3\nnode 0 running place 2 clock 2 instructions 2 handlers 0 sent 0\nblock 0 0 state Home_RW tag ReadWrite depth 0 deferred 0\nend\n";
    expect(&rt, rt.alloc(), "replay 2", TRIED, Status::Done, state)?;
    let broken = with_line(
        rt.alloc(),
        17,
        "history broken event 1 node 0 address 0 read 0 due 1",
    )?;
    expect(
        &rt,
        rt.alloc(),
        "replay 2",
        broken.as_str(),
        Status::Done,
        state,
    )
}

// Under Stache_D a recall for a reader leaves the owner a copy.
const SHIPPED: &str = "tempest 2
nodes 2
words 1
blocks 2
program 0
li r1 6
st r1 r0 1
halt
end
program 1
ld r3 r0 0
ld r2 r0 1
li r4 8
st r4 r0 1
halt
end
shipped Stache_D
=> serial 0 : Done
tempest report 2 nodes 2 words 1 blocks 2 budget 4000
word 1 8
register 0 1 6
register 1 2 6
register 1 4 8
node 0 halted place 2 instructions 4 handlers 4
node 1 halted place 4 instructions 8 handlers 4
history agrees
end
=> serial 0 --meaning : Done
tempest report 2 nodes 2 words 1 blocks 2 budget 4000
word 1 8
register 0 1 6
register 1 2 6
register 1 4 8
node 0 halted place 2 instructions 4 handlers 4
node 1 halted place 4 instructions 8 handlers 4
history agrees
end
=> check : Done
accepted Stache_D messages 10 infos 3 states 10 handlers 32
%%
tempest 1
nodes 1
words 1
blocks 1
shipped Stache_D
=> check : Refused
refused line 5 BadLine
";

#[test]
fn stache_d_is_shipped(rt: HostRuntime) -> Result<(), Fail> {
    expect_all(&rt, rt.alloc(), SHIPPED)
}
