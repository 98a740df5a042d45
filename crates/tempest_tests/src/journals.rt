use crate::cases::{expect_all, expect_meanings};
use std::test::Fail;

// Runs with every event.
const JOURNALS: &str = "tempest 1
nodes 2
words 1
blocks 2
program 0
ld r1 r0 1
ld r2 r0 1
print r2
halt
end
program 1
li r1 7
st r1 r0 1
halt
end
protocol
Protocol Careless
Message GET() 0
Message DATA() 1 data
HomeStart Home ReadWrite
CacheStart Away Invalid
State Home{}
Begin
On GET()
Begin
Send(src, DATA)
End
Default
Begin
Error(Unexpected)
End
End
State Away{}
Begin
On RD_FAULT()
Begin
Send(home, GET)
End
On DATA()
Begin
Install
SetTag(ReadOnly)
WakeUp
End
Default
Begin
Error(Unexpected)
End
End
end
=> serial 1 --journal : Done
tempest report 1 nodes 2 words 1 blocks 2 budget 4000
print 0 0
word 1 7
register 1 1 7
node 0 halted place 3 instructions 5 handlers 1
node 1 halted place 2 instructions 3 handlers 1
event 0 stamp 1 node 0 fault RD_FAULT block 1 sends 1 state Away tag Invalid
event 1 stamp 2 node 1 deliver GET block 1 from 0 channel 0 number 0 sends 1 state Home tag ReadWrite
event 2 stamp 3 node 0 deliver DATA block 1 from 1 channel 1 number 0 sends 0 state Away tag ReadOnly
event 3 stamp 3 node 1 step
event 4 stamp 4 node 0 ld 1 0
event 5 stamp 4 node 1 st 1 7
event 6 stamp 5 node 0 ld 1 0
event 7 stamp 5 node 1 halt
event 8 stamp 6 node 0 print 0
event 9 stamp 7 node 0 halt
history broken event 6 node 0 address 1 read 0 due 7
end
=> --meaning serial 0 : Done
tempest report 1 nodes 2 words 1 blocks 2 budget 4000
print 0 7
word 1 7
register 0 1 7
register 0 2 7
register 1 1 7
node 0 halted place 3 instructions 5 handlers 1
node 1 halted place 2 instructions 3 handlers 1
history agrees
end
%%
tempest 2
nodes 2
words 1
blocks 2
init 0 3
program 0
ld r1 r0 0
faa r2 r1 r0 0
print r1
st r1 r0 1
end
protocol
Protocol Home
HomeStart Here ReadWrite
CacheStart There Invalid
State Here{}
Begin
Default
Begin
Error(Unexpected)
End
End
State There{}
Begin
On WR_FAULT()
Begin
Error(Unexpected)
End
Default
Begin
SetTag(ReadOnly)
Error(NotHere)
End
End
end
=> serial 0 --journal : Unfinished
tempest report 2 nodes 2 words 1 blocks 2 budget 4000
print 0 3
word 0 6
register 0 1 3
register 0 2 3
node 0 failed Unexpected place 3 instructions 4 handlers 0
node 1 halted place 0 instructions 1 handlers 0
event 0 stamp 1 node 0 ld 0 3
event 1 stamp 2 node 0 faa 0 3 6
event 2 stamp 3 node 0 print 3
event 3 stamp 4 node 0 fault WR_FAULT block 1 sends 0 state There tag Invalid failed Unexpected
event 4 stamp 1 node 1 halt
history agrees
end
%%
tempest 2
nodes 2
words 1
blocks 2
init 0 3
program 0
ld r1 r0 0
faa r2 r1 r0 0
print r1
ld r1 r0 1
end
protocol
Protocol Home
HomeStart Here ReadWrite
CacheStart There Invalid
State Here{}
Begin
Default
Begin
Error(Unexpected)
End
End
State There{}
Begin
On WR_FAULT()
Begin
Error(Unexpected)
End
Default
Begin
SetTag(ReadOnly)
Error(NotHere)
End
End
end
=> --journal --meaning serial 7 : Unfinished
tempest report 2 nodes 2 words 1 blocks 2 budget 4000
print 0 3
word 0 6
register 0 1 3
register 0 2 3
node 0 failed NotHere place 3 instructions 4 handlers 0
node 1 halted place 0 instructions 1 handlers 0
event 0 stamp 1 node 0 ld 0 3
event 1 stamp 1 node 1 halt
event 2 stamp 2 node 0 faa 0 3 6
event 3 stamp 3 node 0 print 3
event 4 stamp 4 node 0 fault RD_FAULT block 1 sends 0 state There tag ReadOnly failed NotHere
history agrees
end
%%
tempest 1
nodes 1
words 1
blocks 1
program 0
ld r1 r0 1
end
=> serial 0 --journal : Unfinished
tempest report 1 nodes 1 words 1 blocks 1 budget 4000
node 0 trapped BadAddress place 0 instructions 1 handlers 0
event 0 stamp 1 node 0 trap BadAddress
history agrees
end
";

#[test]
fn journals_are_reported(rt: HostRuntime) -> Result<(), Fail> {
    expect_all(&rt, rt.alloc(), JOURNALS)
}

#[test]
fn journals_of_nodes_are_those_of_the_model(rt: HostRuntime) -> Result<(), Fail> {
    expect_meanings(&rt, rt.alloc(), JOURNALS)
}
