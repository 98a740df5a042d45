//! Machines that are driven event by event, under Stache or the protocol that a name says, for tests of the model, of coherence
//! and of all nodes on one thread: their texts, the events, and the reports of their runs, worked out by hand.
//!
//! A row of events is an event that is made, as `I 0` of an instruction at node 0, `R 2` of a redelivery at node 2 and
//! `D 2 0 1` of a delivery at node 2 from node 0 on channel 1; or an event that is not enabled; or what is on a wire then, as
//! `W 0 2 1` for the wire from node 0 to node 2 on channel 1.
#![tactic(auto)]

/// Two nodes read a word of a third and write it.
pub const WRITERS: &str = "tempest 1
nodes 3
words 1
blocks 3
program 0
ld r1 r0 2
li r2 7
st r2 r0 2
halt
end
program 1
ld r1 r0 2
li r2 8
st r2 r0 2
halt
end
";

/// Its events.
pub const WRITERS_EVENTS: &str = "I 0
I 1
W 0 2 0: 1 GET_RO block 2 number 0 stamp 1
W 0 2 1: 0
D 2 0 0
W 0 2 0: 0
W 2 0 1: 1 DATA_RO block 2 number 0 stamp 2
D 2 1 0
D 0 2 1
D 1 2 1
I 0
I 1
I 0
I 1
I 0
I 1
D 2 0 0
D 1 2 1
D 2 1 0
D 2 1 1
R 2
W 2 0 1: 2 DATA_RW block 2 number 1 stamp 9 RECALL block 2 number 2 stamp 10
D 0 2 1
D 0 2 1: not enabled
I 0
D 0 2 1
D 2 0 1
D 1 2 1
I 1
I 0
I 1
I 2";

/// Its report.
pub const WRITERS_REPORT: &str = "tempest report 1 nodes 3 words 1 blocks 3 budget 4000
word 2 8
register 0 2 7
register 1 2 8
node 0 halted place 3 instructions 6 handlers 3
node 1 halted place 3 instructions 6 handlers 3
node 2 halted place 0 instructions 1 handlers 7
event 0 stamp 1 node 0 fault RD_FAULT block 2 sends 1 state Cache_Wait_RO tag Invalid
event 1 stamp 1 node 1 fault RD_FAULT block 2 sends 1 state Cache_Wait_RO tag Invalid
event 2 stamp 2 node 2 deliver GET_RO block 2 from 0 channel 0 number 0 sends 1 state Home_RO tag ReadOnly
event 3 stamp 3 node 2 deliver GET_RO block 2 from 1 channel 0 number 0 sends 1 state Home_RO tag ReadOnly
event 4 stamp 3 node 0 deliver DATA_RO block 2 from 2 channel 1 number 0 sends 0 state Cache_RO tag ReadOnly
event 5 stamp 4 node 1 deliver DATA_RO block 2 from 2 channel 1 number 0 sends 0 state Cache_RO tag ReadOnly
event 6 stamp 4 node 0 ld 2 0
event 7 stamp 5 node 1 ld 2 0
event 8 stamp 5 node 0 step
event 9 stamp 6 node 1 step
event 10 stamp 6 node 0 fault WR_FAULT block 2 sends 1 state Cache_Wait_RW tag Invalid
event 11 stamp 7 node 1 fault WR_FAULT block 2 sends 1 state Cache_Wait_RW tag Invalid
event 12 stamp 7 node 2 deliver GET_RW block 2 from 0 channel 0 number 1 sends 1 state Home_Acks tag ReadOnly
event 13 stamp 8 node 1 deliver INV block 2 from 2 channel 1 number 1 sends 1 state Cache_Wait_RW tag Invalid
event 14 stamp 8 node 2 deliver GET_RW block 2 from 1 channel 0 number 1 sends 0 state Home_Acks tag ReadOnly
event 15 stamp 9 node 2 deliver ACK block 2 from 1 channel 1 number 0 sends 1 state Home_Excl tag Invalid
event 16 stamp 10 node 2 redeliver GET_RW block 2 from 1 sends 1 state Home_Put tag Invalid
event 17 stamp 10 node 0 deliver DATA_RW block 2 from 2 channel 1 number 1 sends 0 state Cache_RW tag ReadWrite
event 18 stamp 11 node 0 st 2 7
event 19 stamp 12 node 0 deliver RECALL block 2 from 2 channel 1 number 2 sends 1 state Cache_Inv tag Invalid
event 20 stamp 13 node 2 deliver PUT block 2 from 0 channel 1 number 0 sends 1 state Home_Excl tag Invalid
event 21 stamp 14 node 1 deliver DATA_RW block 2 from 2 channel 1 number 2 sends 0 state Cache_RW tag ReadWrite
event 22 stamp 15 node 1 st 2 8
event 23 stamp 13 node 0 halt
event 24 stamp 16 node 1 halt
event 25 stamp 14 node 2 halt
history agrees
end
";

/// The home of a block writes it while another node does; its fault is deferred.
pub const DEFERRED: &str = "tempest 1
nodes 3
words 1
blocks 1
program 0
li r1 5
st r1 r0 0
halt
end
program 1
li r1 6
st r1 r0 0
halt
end
program 2
ld r1 r0 0
halt
end
";

/// Its events.
pub const DEFERRED_EVENTS: &str = "I 2
D 0 2 0
D 2 0 1
I 2
I 1
I 1
D 0 1 0
I 0
I 0
D 2 0 1
R 0: not enabled
D 0 2 1
R 0
W 0 1 1: 2 DATA_RW block 0 number 0 stamp 6 RECALL block 0 number 1 stamp 7
D 1 0 1
I 1
D 1 0 1
D 0 1 1
I 0
I 0
I 1
I 2";

/// Its report.
pub const DEFERRED_REPORT: &str = "tempest report 1 nodes 3 words 1 blocks 1 budget 4000
word 0 5
register 0 1 5
register 1 1 6
node 0 halted place 2 instructions 4 handlers 5
node 1 halted place 2 instructions 4 handlers 2
node 2 halted place 1 instructions 3 handlers 2
event 0 stamp 1 node 2 fault RD_FAULT block 0 sends 1 state Cache_Wait_RO tag Invalid
event 1 stamp 2 node 0 deliver GET_RO block 0 from 2 channel 0 number 0 sends 1 state Home_RO tag ReadOnly
event 2 stamp 3 node 2 deliver DATA_RO block 0 from 0 channel 1 number 0 sends 0 state Cache_RO tag ReadOnly
event 3 stamp 4 node 2 ld 0 0
event 4 stamp 1 node 1 step
event 5 stamp 2 node 1 fault WR_FAULT block 0 sends 1 state Cache_Wait_RW tag Invalid
event 6 stamp 3 node 0 deliver GET_RW block 0 from 1 channel 0 number 0 sends 1 state Home_Acks tag ReadOnly
event 7 stamp 4 node 0 step
event 8 stamp 5 node 0 fault WR_FAULT block 0 sends 0 state Home_Acks tag ReadOnly
event 9 stamp 5 node 2 deliver INV block 0 from 0 channel 1 number 1 sends 1 state Cache_Inv tag Invalid
event 10 stamp 6 node 0 deliver ACK block 0 from 2 channel 1 number 0 sends 1 state Home_Excl tag Invalid
event 11 stamp 7 node 0 redeliver WR_FAULT block 0 from 0 sends 1 state Home_Put tag Invalid
event 12 stamp 7 node 1 deliver DATA_RW block 0 from 0 channel 1 number 0 sends 0 state Cache_RW tag ReadWrite
event 13 stamp 8 node 1 st 0 6
event 14 stamp 9 node 1 deliver RECALL block 0 from 0 channel 1 number 1 sends 1 state Cache_Inv tag Invalid
event 15 stamp 10 node 0 deliver PUT block 0 from 1 channel 1 number 0 sends 0 state Home_RW tag ReadWrite
event 16 stamp 11 node 0 st 0 5
event 17 stamp 12 node 0 halt
event 18 stamp 10 node 1 halt
event 19 stamp 6 node 2 halt
history agrees
end
";

/// A node is woken when it may try no more instructions, and serves others.
pub const LAPSED: &str = "tempest 1
nodes 2
words 1
blocks 2
budget 2
program 0
li r2 1
ld r1 r0 1
halt
end
program 1
li r3 3
st r3 r0 1
halt
end
";

/// Its events.
pub const LAPSED_EVENTS: &str = "I 0
I 0
D 1 0 0
I 1
I 1
D 0 1 1
I 0: not enabled
D 0 1 1
D 1 0 1";

/// Its report.
pub const LAPSED_REPORT: &str = "tempest report 1 nodes 2 words 1 blocks 2 budget 2
register 0 2 1
register 1 3 3
node 0 spent place 1 instructions 2 handlers 2
node 1 spent place 1 instructions 2 handlers 2
event 0 stamp 1 node 0 step
event 1 stamp 2 node 0 fault RD_FAULT block 1 sends 1 state Cache_Wait_RO tag Invalid
event 2 stamp 3 node 1 deliver GET_RO block 1 from 0 channel 0 number 0 sends 1 state Home_RO tag ReadOnly
event 3 stamp 4 node 1 step
event 4 stamp 5 node 1 fault WR_FAULT block 1 sends 1 state Home_Acks tag ReadOnly
event 5 stamp 4 node 0 deliver DATA_RO block 1 from 1 channel 1 number 0 sends 0 state Cache_RO tag ReadOnly
event 6 stamp 6 node 0 deliver INV block 1 from 1 channel 1 number 1 sends 1 state Cache_Inv tag Invalid
event 7 stamp 7 node 1 deliver ACK block 1 from 0 channel 1 number 0 sends 0 state Home_RW tag ReadWrite
history agrees
end
";

/// A home suspends the handlers of two blocks.
pub const TWO_RESTS: &str = "tempest 1
nodes 3
words 1
blocks 4
program 0
ld r1 r0 0
halt
end
program 1
ld r1 r0 3
halt
end
program 2
li r1 9
st r1 r0 0
st r1 r0 3
halt
end
";

/// Its events.
pub const TWO_RESTS_EVENTS: &str = "I 2
I 2
D 0 2 0
D 2 0 1
I 2
I 2
D 0 2 0
D 2 0 1
I 2
I 0
I 1
D 0 1 0
W 0 2 1: 2 RECALL block 0 number 2 stamp 8 RECALL block 3 number 3 stamp 9
D 2 0 1
D 2 0 1
D 0 2 1
I 0
D 0 2 1
D 1 0 1
I 1
I 0
I 1
I 2";

/// Its report.
pub const TWO_RESTS_REPORT: &str = "tempest report 1 nodes 3 words 1 blocks 4 budget 4000
word 0 9
word 3 9
register 0 1 9
register 1 1 9
register 2 1 9
node 0 halted place 1 instructions 3 handlers 5
node 1 halted place 1 instructions 3 handlers 1
node 2 halted place 3 instructions 6 handlers 4
event 0 stamp 1 node 2 step
event 1 stamp 2 node 2 fault WR_FAULT block 0 sends 1 state Cache_Wait_RW tag Invalid
event 2 stamp 3 node 0 deliver GET_RW block 0 from 2 channel 0 number 0 sends 1 state Home_Excl tag Invalid
event 3 stamp 4 node 2 deliver DATA_RW block 0 from 0 channel 1 number 0 sends 0 state Cache_RW tag ReadWrite
event 4 stamp 5 node 2 st 0 9
event 5 stamp 6 node 2 fault WR_FAULT block 3 sends 1 state Cache_Wait_RW tag Invalid
event 6 stamp 7 node 0 deliver GET_RW block 3 from 2 channel 0 number 1 sends 1 state Home_Excl tag Invalid
event 7 stamp 8 node 2 deliver DATA_RW block 3 from 0 channel 1 number 1 sends 0 state Cache_RW tag ReadWrite
event 8 stamp 9 node 2 st 3 9
event 9 stamp 8 node 0 fault RD_FAULT block 0 sends 1 state Home_Put tag Invalid
event 10 stamp 1 node 1 fault RD_FAULT block 3 sends 1 state Cache_Wait_RO tag Invalid
event 11 stamp 9 node 0 deliver GET_RO block 3 from 1 channel 0 number 0 sends 1 state Home_Put tag Invalid
event 12 stamp 10 node 2 deliver RECALL block 0 from 0 channel 1 number 2 sends 1 state Cache_Inv tag Invalid
event 13 stamp 11 node 2 deliver RECALL block 3 from 0 channel 1 number 3 sends 1 state Cache_Inv tag Invalid
event 14 stamp 11 node 0 deliver PUT block 0 from 2 channel 1 number 0 sends 0 state Home_RW tag ReadWrite
event 15 stamp 12 node 0 ld 0 9
event 16 stamp 13 node 0 deliver PUT block 3 from 2 channel 1 number 1 sends 1 state Home_RO tag ReadOnly
event 17 stamp 14 node 1 deliver DATA_RO block 3 from 0 channel 1 number 0 sends 0 state Cache_RO tag ReadOnly
event 18 stamp 15 node 1 ld 3 9
event 19 stamp 14 node 0 halt
event 20 stamp 16 node 1 halt
event 21 stamp 12 node 2 halt
history agrees
end
";

/// Its report with counts and without the events.
pub const TWO_RESTS_COUNTS: &str = "tempest report 1 nodes 3 words 1 blocks 4 budget 4000
word 0 9
word 3 9
register 0 1 9
register 1 1 9
register 2 1 9
node 0 halted place 1 instructions 3 handlers 5
node 1 halted place 1 instructions 3 handlers 1
node 2 halted place 3 instructions 6 handlers 4
counts 0 ops 36 records 2
counts 1 ops 9 records 1
counts 2 ops 28 records 2
history agrees
end
";

/// Three nodes read a word of a fourth.
pub const READERS: &str = "tempest 2
nodes 4
words 1
blocks 4
init 3 4
program 0
ld r1 r0 3
halt
end
program 1
ld r1 r0 3
halt
end
program 2
ld r1 r0 3
halt
end
";

/// Its report without the events, in the first schedule under Stache_L: the third reader has the copy of the second invalidated.
pub const READERS_OF_L: &str = "tempest report 2 nodes 4 words 1 blocks 4 budget 4000
word 3 4
register 0 1 4
register 1 1 4
register 2 1 4
node 0 halted place 1 instructions 3 handlers 1
node 1 halted place 1 instructions 3 handlers 2
node 2 halted place 1 instructions 3 handlers 1
node 3 halted place 0 instructions 1 handlers 4
history agrees
end
";

/// Three nodes read a word of a fourth, and the first writes it.
pub const A_READER_WRITES: &str = "tempest 2
nodes 4
words 1
blocks 4
init 3 4
program 0
ld r1 r0 3
st r0 r0 3
halt
end
program 1
ld r1 r0 3
halt
end
program 2
ld r1 r0 3
halt
end
";

/// Its events under Stache_L: the third reader meets two sharers, of which one gives its copy up and the other asks to write.
pub const A_READER_WRITES_EVENTS: &str = "I 0
I 1
I 2
D 3 0 0
D 0 3 1
I 0
D 3 1 0
D 1 3 1
I 1
D 3 2 0
W 3 1 1: 1 INV block 3 number 1 stamp 4
I 0
D 3 0 0
D 1 3 1
D 3 1 1
W 3 2 1: 1 DATA_RO block 3 number 0 stamp 7
R 3
D 2 3 1
I 2
D 2 3 1
D 3 2 1
D 0 3 1
I 0
I 0
I 1
I 2
I 3";

/// Its report without the events.
pub const A_READER_WRITES_REPORT: &str = "tempest report 2 nodes 4 words 1 blocks 4 budget 4000
register 0 1 4
register 1 1 4
register 2 1 4
node 0 halted place 2 instructions 5 handlers 2
node 1 halted place 1 instructions 3 handlers 2
node 2 halted place 1 instructions 3 handlers 2
node 3 halted place 0 instructions 1 handlers 7
history agrees
end
";

/// Under Stache_D: the home reads a word of the owner, which keeps a copy and writes it again at once.
pub const COPY_KEPT: &str = "tempest 2
nodes 2
words 1
blocks 2
program 0
li r1 6
st r1 r0 1
st r0 r0 1
halt
end
program 1
ld r2 r0 1
halt
end
";

/// Its events: the request of the owner's second store comes, and is deferred, ahead of its answer to the recall.
pub const COPY_KEPT_EVENTS: &str = "I 0
I 0
D 1 0 0
D 0 1 1
I 0
I 1
W 1 0 1: 1 RECALL_RO block 1 number 1 stamp 4
D 0 1 1
I 0
W 0 1 1: 1 PUT_RO block 1 number 0 stamp 6
D 1 0 0
D 1 0 1
I 1
R 1
D 0 1 1
I 0
I 0
I 1";

/// Its report.
pub const COPY_KEPT_REPORT: &str = "tempest report 2 nodes 2 words 1 blocks 2 budget 4000
register 0 1 6
register 1 2 6
node 0 halted place 3 instructions 6 handlers 3
node 1 halted place 1 instructions 3 handlers 4
event 0 stamp 1 node 0 step
event 1 stamp 2 node 0 fault WR_FAULT block 1 sends 1 state Cache_Wait_RW tag Invalid
event 2 stamp 3 node 1 deliver GET_RW block 1 from 0 channel 0 number 0 sends 1 state Home_Excl tag Invalid
event 3 stamp 4 node 0 deliver DATA_RW block 1 from 1 channel 1 number 0 sends 0 state Cache_RW tag ReadWrite
event 4 stamp 5 node 0 st 1 6
event 5 stamp 4 node 1 fault RD_FAULT block 1 sends 1 state Home_Put tag Invalid
event 6 stamp 6 node 0 deliver RECALL_RO block 1 from 1 channel 1 number 1 sends 1 state Cache_RO tag ReadOnly
event 7 stamp 7 node 0 fault WR_FAULT block 1 sends 1 state Cache_Wait_RW tag Invalid
event 8 stamp 8 node 1 deliver GET_RW block 1 from 0 channel 0 number 1 sends 0 state Home_Put tag Invalid
event 9 stamp 9 node 1 deliver PUT_RO block 1 from 0 channel 1 number 0 sends 0 state Home_RO tag ReadOnly
event 10 stamp 10 node 1 ld 1 6
event 11 stamp 11 node 1 redeliver GET_RW block 1 from 0 sends 1 state Home_Excl tag Invalid
event 12 stamp 12 node 0 deliver DATA_RW block 1 from 1 channel 1 number 2 sends 0 state Cache_RW tag ReadWrite
event 13 stamp 13 node 0 st 1 0
event 14 stamp 14 node 0 halt
event 15 stamp 12 node 1 halt
history agrees
end
";

/// The home reads a word that another node wrote, and then writes it.
pub const HOME_READS: &str = "tempest 2
nodes 2
words 1
blocks 2
program 0
li r1 6
st r1 r0 1
halt
end
program 1
ld r3 r0 0
ld r2 r0 1
li r4 8
st r4 r0 1
halt
end
";

/// The report of its serial run under Stache, without its events.
pub const HOME_READS_REPORT: &str = "tempest report 2 nodes 2 words 1 blocks 2 budget 4000
word 1 8
register 0 1 6
register 1 2 6
register 1 4 8
node 0 halted place 2 instructions 4 handlers 3
node 1 halted place 4 instructions 7 handlers 3
history agrees
end
";

/// The same under Stache_D: node 0 keeps a copy, which the home takes back before it writes.
pub const HOME_READS_REPORT_D: &str = "tempest report 2 nodes 2 words 1 blocks 2 budget 4000
word 1 8
register 0 1 6
register 1 2 6
register 1 4 8
node 0 halted place 2 instructions 4 handlers 4
node 1 halted place 4 instructions 8 handlers 4
history agrees
end
";
