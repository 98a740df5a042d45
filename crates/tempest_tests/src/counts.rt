use crate::cases::{expect_all, expect_meanings};
use dsm_model::{Outcome, Setup};
use journal::{Final, Options, report};
use mini_asm::Cpu;
use std::alloc::Global;
use std::test::Fail;
use tempest_run::read_input;

fn setup(alloc: Global, text: &str) -> Result<Setup, Fail> {
    if text.len() > 100 {
        return Err(Fail::new("a text that is too long"));
    }
    match read_input(alloc, text.as_bytes()) {
        Ok(setup) => Ok(setup),
        Err(_) => Err(Fail::new("a text that is refused")),
    }
}

// Runs with the ops that the handlers of each node made, and the records that they saved. Of the second run, each node made
// three ops for its fault, eight for a request and six for its data.
const COUNTED: &str = "<TWO_RESTS>
=> serial 0 --counts : Done
tempest report 1 nodes 3 words 1 blocks 4 budget 4000
word 0 9
word 3 9
register 2 1 9
node 0 halted place 1 instructions 2 handlers 4
node 1 halted place 1 instructions 3 handlers 2
node 2 halted place 3 instructions 6 handlers 2
counts 0 ops 47 records 1
counts 1 ops 14 records 1
counts 2 ops 18 records 2
history agrees
end
=> --counts serial 0 --journal : Done
tempest report 1 nodes 3 words 1 blocks 4 budget 4000
word 0 9
word 3 9
register 2 1 9
node 0 halted place 1 instructions 2 handlers 4
node 1 halted place 1 instructions 3 handlers 2
node 2 halted place 3 instructions 6 handlers 2
counts 0 ops 47 records 1
counts 1 ops 14 records 1
counts 2 ops 18 records 2
event 0 stamp 1 node 0 ld 0 0
event 1 stamp 2 node 0 halt
event 2 stamp 1 node 1 fault RD_FAULT block 3 sends 1 state Cache_Wait_RO tag Invalid
event 3 stamp 3 node 0 deliver GET_RO block 3 from 1 channel 0 number 0 sends 1 state Home_RO tag ReadOnly
event 4 stamp 4 node 1 deliver DATA_RO block 3 from 0 channel 1 number 0 sends 0 state Cache_RO tag ReadOnly
event 5 stamp 5 node 1 ld 3 0
event 6 stamp 6 node 1 halt
event 7 stamp 1 node 2 step
event 8 stamp 2 node 2 fault WR_FAULT block 0 sends 1 state Cache_Wait_RW tag Invalid
event 9 stamp 4 node 0 deliver GET_RW block 0 from 2 channel 0 number 0 sends 1 state Home_Excl tag Invalid
event 10 stamp 5 node 2 deliver DATA_RW block 0 from 0 channel 1 number 0 sends 0 state Cache_RW tag ReadWrite
event 11 stamp 6 node 2 st 0 9
event 12 stamp 7 node 2 fault WR_FAULT block 3 sends 1 state Cache_Wait_RW tag Invalid
event 13 stamp 8 node 0 deliver GET_RW block 3 from 2 channel 0 number 1 sends 1 state Home_Acks tag ReadOnly
event 14 stamp 9 node 1 deliver INV block 3 from 0 channel 1 number 1 sends 1 state Cache_Inv tag Invalid
event 15 stamp 10 node 0 deliver ACK block 3 from 1 channel 1 number 0 sends 1 state Home_Excl tag Invalid
event 16 stamp 11 node 2 deliver DATA_RW block 3 from 0 channel 1 number 1 sends 0 state Cache_RW tag ReadWrite
event 17 stamp 12 node 2 st 3 9
event 18 stamp 13 node 2 halt
history agrees
end
%%
<BOTH>
=> serial --counts 0 : Done
tempest report 1 nodes 2 words 1 blocks 2 budget 4000
print 0 1
print 1 1
word 0 1
word 1 1
register 0 1 1
register 0 2 1
register 1 1 1
register 1 2 1
node 0 halted place 4 instructions 6 handlers 2
node 1 halted place 4 instructions 6 handlers 2
counts 0 ops 17 records 1
counts 1 ops 17 records 1
history agrees
end
%%
<STORE_AND_PRINT>
protocol
<WALK>
end
=> serial 0 --counts : Done
tempest report 1 nodes 2 words 1 blocks 1 budget 4000
print 1 0
register 0 1 9
node 0 halted place 2 instructions 3 handlers 4
node 1 halted place 2 instructions 4 handlers 2
counts 0 ops 25 records 2
counts 1 ops 10 records 0
history broken event 10 node 1 address 0 read 0 due 9
end
%%
<READER>
protocol
<DEAF>
end
=> serial 0 --counts : Unfinished
tempest report 1 nodes 2 words 1 blocks 1 budget 4000
node 0 halted place 0 instructions 1 handlers 1
node 1 stuck place 0 instructions 1 handlers 0
counts 0 ops 1 records 0
counts 1 ops 3 records 0
history agrees
end
%%
<SHORT_READER>
protocol
<PING_PONG>
end
=> serial 0 --counts : Unfinished
tempest report 1 nodes 2 words 1 blocks 1 budget 2
node 0 spent place 0 instructions 1 handlers 48
node 1 spent place 0 instructions 1 handlers 47
counts 0 ops 144 records 0
counts 1 ops 144 records 0
history agrees
end
";

#[test]
fn handlers_are_counted(rt: HostRuntime) -> Result<(), Fail> {
    expect_all(&rt, rt.alloc(), COUNTED)
}

#[test]
fn counted_runs_are_those_of_the_model(rt: HostRuntime) -> Result<(), Fail> {
    expect_meanings(&rt, rt.alloc(), COUNTED)
}

const REPORT: &str = "tempest report 1 nodes 1 words 1 blocks 1 budget 4000
node 0 halted place 0 instructions 1 handlers 0
counts 0 ops 7 records 2
history agrees
end
";

// A report with counts has a line of them for each node.
#[test]
fn counts_are_reported(rt: HostRuntime) -> Result<(), Fail> {
    let alloc = rt.alloc();
    let setup = setup(alloc, "tempest 1\nnodes 1\nwords 1\nblocks 1\n")?;
    let finals = [Final {
        outcome: Outcome::Halted,
        cpu: Cpu::new(),
        instructions: 1,
        handled: 0,
        ops: 7,
        records: 2,
    }];
    let options = Options {
        journal: false,
        counts: true,
    };
    let text = report(alloc, &setup, &[], &finals, &[0], None, options)?;
    assert_eq!(rt; text.as_slice(), REPORT.as_bytes());
    Ok(())
}
