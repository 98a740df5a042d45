use crate::cases::{expect_all, expect_meanings, expect_section};
use std::test::Fail;

// Runs, the code of a protocol, and protocols of profile 2.
const RUNS: &str = "<BOTH>
=> serial 0 : Done
tempest report 1 nodes 2 words 1 blocks 2 budget 4000
print 0 1
print 1 1
word 0 1
word 1 1
register 0 1 1
register 0 2 1
register 1 1 1
register 1 2 1
node 0 halted place 4 instructions 6 handlers 2
node 1 halted place 4 instructions 6 handlers 2
history agrees
end
=> serial 0 --journal : Done
tempest report 1 nodes 2 words 1 blocks 2 budget 4000
print 0 1
print 1 1
word 0 1
word 1 1
register 0 1 1
register 0 2 1
register 1 1 1
register 1 2 1
node 0 halted place 4 instructions 6 handlers 2
node 1 halted place 4 instructions 6 handlers 2
event 0 stamp 1 node 0 step
event 1 stamp 2 node 0 st 0 1
event 2 stamp 3 node 0 fault RD_FAULT block 1 sends 1 state Cache_Wait_RO tag Invalid
event 3 stamp 1 node 1 step
event 4 stamp 2 node 1 st 1 1
event 5 stamp 3 node 1 fault RD_FAULT block 0 sends 1 state Cache_Wait_RO tag Invalid
event 6 stamp 4 node 0 deliver GET_RO block 0 from 1 channel 0 number 0 sends 1 state Home_RO tag ReadOnly
event 7 stamp 4 node 1 deliver GET_RO block 1 from 0 channel 0 number 0 sends 1 state Home_RO tag ReadOnly
event 8 stamp 5 node 0 deliver DATA_RO block 1 from 1 channel 1 number 0 sends 0 state Cache_RO tag ReadOnly
event 9 stamp 6 node 0 ld 1 1
event 10 stamp 7 node 0 print 1
event 11 stamp 8 node 0 halt
event 12 stamp 5 node 1 deliver DATA_RO block 0 from 0 channel 1 number 0 sends 0 state Cache_RO tag ReadOnly
event 13 stamp 6 node 1 ld 0 1
event 14 stamp 7 node 1 print 1
event 15 stamp 8 node 1 halt
history agrees
end
%%
<SEVEN_READERS>
=> serial 0 : Done
tempest report 1 nodes 8 words 1 blocks 8 budget 4000
word 7 9
register 0 1 4
register 1 1 4
register 2 1 4
register 3 1 4
register 4 1 4
register 5 1 4
register 6 1 4
register 7 1 9
node 0 halted place 1 instructions 3 handlers 2
node 1 halted place 1 instructions 3 handlers 2
node 2 halted place 1 instructions 3 handlers 2
node 3 halted place 1 instructions 3 handlers 2
node 4 halted place 1 instructions 3 handlers 2
node 5 halted place 1 instructions 3 handlers 2
node 6 halted place 1 instructions 3 handlers 3
node 7 halted place 3 instructions 6 handlers 15
history agrees
end
%%
tempest 1
nodes 2
words 1
blocks 2
program 0
li r1 6
st r1 r0 1
halt
end
program 1
ld r3 r0 0
ld r2 r0 1
print r2
halt
end
=> serial 0 : Done
tempest report 1 nodes 2 words 1 blocks 2 budget 4000
print 1 6
word 1 6
register 0 1 6
register 1 2 6
node 0 halted place 2 instructions 4 handlers 3
node 1 halted place 3 instructions 6 handlers 3
history agrees
end
=> serial 0 --journal : Done
tempest report 1 nodes 2 words 1 blocks 2 budget 4000
print 1 6
word 1 6
register 0 1 6
register 1 2 6
node 0 halted place 2 instructions 4 handlers 3
node 1 halted place 3 instructions 6 handlers 3
event 0 stamp 1 node 0 step
event 1 stamp 2 node 0 fault WR_FAULT block 1 sends 1 state Cache_Wait_RW tag Invalid
event 2 stamp 1 node 1 fault RD_FAULT block 0 sends 1 state Cache_Wait_RO tag Invalid
event 3 stamp 3 node 0 deliver GET_RO block 0 from 1 channel 0 number 0 sends 1 state Home_RO tag ReadOnly
event 4 stamp 3 node 1 deliver GET_RW block 1 from 0 channel 0 number 0 sends 1 state Home_Excl tag Invalid
event 5 stamp 4 node 0 deliver DATA_RW block 1 from 1 channel 1 number 0 sends 0 state Cache_RW tag ReadWrite
event 6 stamp 5 node 0 st 1 6
event 7 stamp 6 node 0 halt
event 8 stamp 4 node 1 deliver DATA_RO block 0 from 0 channel 1 number 0 sends 0 state Cache_RO tag ReadOnly
event 9 stamp 5 node 1 ld 0 0
event 10 stamp 6 node 1 fault RD_FAULT block 1 sends 1 state Home_Put tag Invalid
event 11 stamp 7 node 0 deliver RECALL block 1 from 1 channel 1 number 1 sends 1 state Cache_Inv tag Invalid
event 12 stamp 8 node 1 deliver PUT block 1 from 0 channel 1 number 1 sends 0 state Home_RW tag ReadWrite
event 13 stamp 9 node 1 ld 1 6
event 14 stamp 10 node 1 print 6
event 15 stamp 11 node 1 halt
history agrees
end
%%
tempest 1
nodes 2
words 1
blocks 2
budget 50
program 0
spin:
ld r1 r0 0
beq r1 r0 spin
halt
end
program 1
li r1 4
st r1 r0 1
ld r2 r0 0
print r2
halt
end
=> serial 0 : Unfinished
tempest report 1 nodes 2 words 1 blocks 2 budget 50
print 1 0
word 1 4
register 1 1 4
node 0 spent place 0 instructions 50 handlers 1
node 1 halted place 4 instructions 6 handlers 1
history agrees
end
%%
tempest 1
nodes 2
words 4
blocks 2
program 0
li r1 42
st r1 r0 0
li r2 1
st r2 r0 4
halt
end
program 1
spin:
ld r3 r0 4
beq r3 r0 spin
ld r4 r0 0
print r4
halt
end
=> serial 1 : Done
tempest report 1 nodes 2 words 4 blocks 2 budget 4000
print 1 42
word 0 42
word 4 1
register 0 1 42
register 0 2 1
register 1 3 1
register 1 4 42
node 0 halted place 4 instructions 6 handlers 3
node 1 halted place 4 instructions 11 handlers 3
history agrees
end
%%
<READER>
protocol
<DEAF>
end
=> serial 0 : Unfinished
tempest report 1 nodes 2 words 1 blocks 1 budget 4000
node 0 halted place 0 instructions 1 handlers 1
node 1 stuck place 0 instructions 1 handlers 0
history agrees
end
=> code : Done
handler H Default slots 1
  0 Done
handler I RD_FAULT slots 1
  1 Home
  2 Send GET
  3 Done
handler I Default slots 1
  4 Done
end
%%
<SHORT_READER>
protocol
<PING_PONG>
end
=> serial 0 : Unfinished
tempest report 1 nodes 2 words 1 blocks 1 budget 2
node 0 spent place 0 instructions 1 handlers 48
node 1 spent place 0 instructions 1 handlers 47
history agrees
end
%%
tempest 1
nodes 2
words 1
blocks 2
program 0
li r1 7
st r1 r0 1
ld r2 r0 1
halt
end
program 1
ld r3 r0 0
ld r4 r0 1
halt
end
protocol
<DOUBLE>
end
=> serial 0 : Done
tempest report 1 nodes 2 words 1 blocks 2 budget 4000
word 1 7
register 0 1 7
register 0 2 7
node 0 halted place 3 instructions 5 handlers 2
node 1 halted place 2 instructions 4 handlers 2
history broken event 11 node 1 address 1 read 0 due 7
end
%%
<READER>
protocol
Protocol Deep
Message NEST() 0
HomeStart H ReadWrite
CacheStart I Invalid
State H{}
Begin
On NEST()
Begin
Suspend(L, W{; L})
End
Default
Begin
End
End
State W{; C}
Begin
On NEST()
Begin
Suspend(L, W{; L})
End
Default
Begin
End
End
State I{}
Begin
On RD_FAULT()
Begin
Send(home, NEST)
Send(home, NEST)
Send(home, NEST)
Send(home, NEST)
Send(home, NEST)
Send(home, NEST)
Send(home, NEST)
Send(home, NEST)
End
Default
Begin
End
End
end
=> serial 0 : Unfinished
tempest report 1 nodes 2 words 1 blocks 1 budget 4000
node 0 halted place 0 instructions 1 handlers 8
node 1 stuck place 0 instructions 1 handlers 0
history agrees
end
%%
<READER>
protocol
<DEEP>
end
=> serial 0 : Unfinished
tempest report 1 nodes 2 words 1 blocks 1 budget 4000
node 0 failed TooDeep place 0 instructions 1 handlers 9
node 1 stuck place 0 instructions 1 handlers 0
history agrees
end
=> serial 0 --journal : Unfinished
tempest report 1 nodes 2 words 1 blocks 1 budget 4000
node 0 failed TooDeep place 0 instructions 1 handlers 9
node 1 stuck place 0 instructions 1 handlers 0
event 0 stamp 1 node 0 halt
event 1 stamp 1 node 1 fault RD_FAULT block 0 sends 9 state I tag Invalid
event 2 stamp 2 node 0 deliver NEST block 0 from 1 channel 0 number 0 sends 0 state W tag ReadWrite
event 3 stamp 3 node 0 deliver NEST block 0 from 1 channel 0 number 1 sends 0 state W tag ReadWrite
event 4 stamp 4 node 0 deliver NEST block 0 from 1 channel 0 number 2 sends 0 state W tag ReadWrite
event 5 stamp 5 node 0 deliver NEST block 0 from 1 channel 0 number 3 sends 0 state W tag ReadWrite
event 6 stamp 6 node 0 deliver NEST block 0 from 1 channel 0 number 4 sends 0 state W tag ReadWrite
event 7 stamp 7 node 0 deliver NEST block 0 from 1 channel 0 number 5 sends 0 state W tag ReadWrite
event 8 stamp 8 node 0 deliver NEST block 0 from 1 channel 0 number 6 sends 0 state W tag ReadWrite
event 9 stamp 9 node 0 deliver NEST block 0 from 1 channel 0 number 7 sends 0 state W tag ReadWrite
event 10 stamp 10 node 0 deliver NEST block 0 from 1 channel 0 number 8 sends 0 state W tag ReadWrite failed TooDeep
history agrees
end
%%
tempest 2
nodes 2
words 1
blocks 1
program 0
li r1 1
faa r2 r1 r0 0
print r2
halt
end
program 1
li r1 1
faa r2 r1 r0 0
print r2
halt
end
=> serial 0 : Done
tempest report 2 nodes 2 words 1 blocks 1 budget 4000
print 0 0
print 1 1
word 0 2
register 0 1 1
register 1 1 1
register 1 2 1
node 0 halted place 3 instructions 4 handlers 1
node 1 halted place 3 instructions 5 handlers 1
history agrees
end
=> serial 0 --journal : Done
tempest report 2 nodes 2 words 1 blocks 1 budget 4000
print 0 0
print 1 1
word 0 2
register 0 1 1
register 1 1 1
register 1 2 1
node 0 halted place 3 instructions 4 handlers 1
node 1 halted place 3 instructions 5 handlers 1
event 0 stamp 1 node 0 step
event 1 stamp 2 node 0 faa 0 0 1
event 2 stamp 3 node 0 print 0
event 3 stamp 4 node 0 halt
event 4 stamp 1 node 1 step
event 5 stamp 2 node 1 fault WR_FAULT block 0 sends 1 state Cache_Wait_RW tag Invalid
event 6 stamp 5 node 0 deliver GET_RW block 0 from 1 channel 0 number 0 sends 1 state Home_Excl tag Invalid
event 7 stamp 6 node 1 deliver DATA_RW block 0 from 0 channel 1 number 0 sends 0 state Cache_RW tag ReadWrite
event 8 stamp 7 node 1 faa 0 1 2
event 9 stamp 8 node 1 print 1
event 10 stamp 9 node 1 halt
history agrees
end
%%
<STORE_AND_PRINT>
protocol
<WALK>
end
=> serial 0 : Done
tempest report 1 nodes 2 words 1 blocks 1 budget 4000
print 1 0
register 0 1 9
node 0 halted place 2 instructions 3 handlers 4
node 1 halted place 2 instructions 4 handlers 2
history broken event 10 node 1 address 0 read 0 due 9
end
=> check : Done
accepted Walk messages 4 infos 0 states 3 handlers 9
%%
tempest 1
nodes 1
words 1
blocks 1
protocol
<DROP>
end
=> check : Refused
refused line 20 ContDropped
%%
tempest 1
nodes 1
words 1
blocks 1
protocol
Protocol Drop 2
Message GO() 0
HomeStart H ReadWrite
CacheStart H ReadWrite
State H{}
Begin
Default
Begin
End
End
State W{; C}
Begin
On GO()
Begin
Local x Node
ForEach x Empty
Begin
Resume(C)
End
End
Default
Begin
End
End
end
=> check : Refused
refused line 23 ResumeNotLast
";

#[test]
fn runs_are_reported(rt: HostRuntime) -> Result<(), Fail> {
    expect_all(&rt, rt.alloc(), RUNS)
}

#[test]
fn section_runs_as_shipped(rt: HostRuntime) -> Result<(), Fail> {
    expect_section(&rt, rt.alloc(), RUNS)
}

#[test]
fn runs_on_nodes_are_those_of_the_model(rt: HostRuntime) -> Result<(), Fail> {
    expect_meanings(&rt, rt.alloc(), RUNS)
}
