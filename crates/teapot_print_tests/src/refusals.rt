//! Lines that are refused, and for what.
//!
//! In a row `/` ends a line, and `~` stands between pieces, of which `N*` says that one stands N times.

/// Lines of no form.
pub const BAD_LINES: &str = "1
( x )
:= 1
x
Int x
Invalid
True
src := self
data
RD_FAULT()
Protocol
Protocol 2
Protocol Q 1
Protocol Q 3
Protocol Q 2 2
Protocol Q R
Message M
Message M 0
Message M()
Message M() 2
Message M() 1 1
Message M() 1 data data
Message M() data
Message M(Int,) 0
Message M(,Int) 0
Message M(Int Int) 0
Message M(int) 0
Message M(x Int) 0
Message M{} 0
Message M( 0
Info x
Info Int
Info x y
Info x ReadOnly
Info x Int Int
HomeStart H
HomeStart Invalid
HomeStart H Int
CacheStart H Invalid Invalid
CacheStart H{} Invalid
State S
State S()
State S{
State S}
State S{a}
State S{Int a}
State S{a Int,}
State S{a Int b Int}
State S{;}
State S{; C D}
State S{; C, D}
State S{; C} 1
State S{a Int C}
On
On M
On M{}
On M(
On M(Int)
On M(a b)
On M(a,)
On M() 0
On Default()
On src()
Default()
Local x
Local x Int 0
Begin 1
End End
If
If a b
If (a)
Else If a
x = 1
x : = 1
x :=
x := 1 2
x := y := z
x := 4294967296
x := 18446744073709551615
x := (1)
x := ()
x := 1 + 2
x := (1 + 2 + 3)
x := ((1 + 2))
x := (1 +)
x := (1 + 2
x := (1 : 2)
x := (1, 2)
x := -1
x := Not 1
x := Not()
x := Not(1, 2)
x := Count{s}
x := Has(s)
x := With(s, a, b)
x := Without(s a)
x := If
Send(src)
Send(src, M,)
Send(src, 1)
Send(src, M
Send src, M
Send(src, M) 1
SendAll()
SendAll(s; M)
SetTag Invalid
SetTag(Int)
SetTag()
SetState(S)
SetState(S{)
SetState(S{a,})
SetState(S{; L})
SetState S{}
Suspend(L, S{})
Suspend(L, S{;})
Suspend(L, S{,; L})
Suspend(L, S{a,; L})
Suspend(S{; L})
Suspend(L, S{; L}
Resume C
Resume()
Resume(C, C)
Error()
Error(1)
Install()
Enqueue 1
WakeUp WakeUp";

/// Words that are no names.
pub const RESERVED: &str = "Protocol
Message
Info
HomeStart
CacheStart
State
On
Default
Local
Begin
End
If
Else
Send
SendAll
SetTag
SetState
Suspend
Resume
Error
Install
Enqueue
WakeUp
Int
Bool
Node
Set
Invalid
ReadOnly
ReadWrite
True
False
Empty
src
self
home
One
Not
Count
Has
With
Without
data
RD_FAULT
WR_FAULT";

/// Whole texts.
pub const TEXTS: &str = " -> BadNest 1
/# nothing/ -> BadNest 3
Message M() 0/ -> BadNest 1
/End/ -> BadNest 2
Protocol/ -> BadLine 1
Protocol If/ -> BadLine 1
Protocol P 1/ -> BadLine 1
Protocol P 3/ -> BadLine 1
Protocol ForEach 2/ -> BadLine 1
Protocol P/Protocol Q/ -> BadNest 2
Protocol P/Protocol Q 2/ -> BadLine 2
Protocol P 2/Protocol Q/ -> BadNest 2
Protocol P 2/Protocol Q 2/ -> BadNest 2
Info x Int/Protocol P 2/ -> BadLine 2";

/// Texts behind a first line of either profile.
pub const ANSWERS: &str = "Info x Int/Message M() 0/ -> BadNest 3
HomeStart H Invalid/Info x Int/ -> BadNest 3
CacheStart H Invalid/Message M() 0/ -> BadNest 3
State S{}/Begin/End/Message M() 0/ -> BadNest 5
State S{}/Begin/End/Info x Int/ -> BadNest 5
State S{}/Begin/End/HomeStart H Invalid/ -> BadNest 5
Message M() 0/HomeStart H Invalid/CacheStart H Invalid/State S{}/Begin/End/ -> read
Begin/ -> BadNest 2
End/ -> BadNest 2
Default/ -> BadNest 2
On M()/ -> BadNest 2
Local x Int/ -> BadNest 2
If x/ -> BadNest 2
Else/ -> BadNest 2
x := 1/ -> BadNest 2
WakeUp/ -> BadNest 2
State S{}/State T{}/ -> BadNest 3
State S{}/End/ -> BadNest 3
State S{}/Begin/Begin/ -> BadNest 4
State S{}/Begin/WakeUp/ -> BadNest 4
State S{}/Begin/State T{}/ -> BadNest 4
State S{}/Begin/Local x Int/ -> BadNest 4
State S{}/Begin/End/End/ -> BadNest 5
State S{}/Begin/End/Begin/ -> BadNest 5
State S{}/Begin/End/Default/ -> BadNest 5
State S{}/Begin/Default/Default/ -> BadNest 5
State S{}/Begin/On M()/End/ -> BadNest 5
State S{}/Begin/Default/Begin/On M()/ -> BadNest 6
State S{}/Begin/Default/Begin/Begin/ -> BadNest 6
State S{}/Begin/Default/Begin/Else/ -> BadNest 6
State S{}/Begin/Default/Begin/State T{}/ -> BadNest 6
State S{}/Begin/Default/Begin/Info x Int/ -> BadNest 6
State S{}/Begin/Default/Begin/WakeUp/Local x Int/ -> BadNest 7
State S{}/Begin/Default/Begin/Local x Int/Local y Int/x := 1/Local z Int/ -> BadNest 9
State S{}/Begin/Default/Begin/End/End/End/ -> BadNest 8
State S{}/Begin/Default/Begin/End/End/WakeUp/ -> BadNest 8
State S{}/Begin/Default/Begin/If x/WakeUp/ -> BadNest 7
State S{}/Begin/Default/Begin/If x/Else/ -> BadNest 7
State S{}/Begin/Default/Begin/If x/Begin/Else/ -> BadNest 8
State S{}/Begin/Default/Begin/If x/Begin/Local y Int/ -> BadNest 8
State S{}/Begin/Default/Begin/If x/Begin/End/Else/WakeUp/ -> BadNest 10
State S{}/Begin/Default/Begin/If x/Begin/End/WakeUp/Else/ -> BadNest 10
State S{}/Begin/Default/Begin/If x/Begin/End/Else/Begin/End/Else/ -> BadNest 12
State S{}/Begin/Default/Begin/If x/Begin/End/Local y Int/ -> BadNest 9
State S{}/Begin/Default/Begin/If x/Begin/End/End/WakeUp/ -> BadNest 10
State S{}/ -> BadNest 3
State S{}/Begin/ -> BadNest 4
State S{}/Begin/Default/ -> BadNest 5
State S{}/Begin/Default/Begin/ -> BadNest 6
State S{}/Begin/Default/Begin/End/ -> BadNest 7
State S{}/Begin/Default/Begin/If x/ -> BadNest 7
State S{}/Begin/Default/Begin/If x/Begin//# If/ -> BadNest 10
State S{}/Begin/Default/Begin/If x/Begin/End/End/ -> BadNest 10
State S{}/Begin/Default/Begin/If x/Begin/End/Else/ -> BadNest 10
State S{}//# note -> BadNest 5
64*State S{}/Begin/End/ -> read
65*State S{}/Begin/End/ -> TooMany States 194
64*Message M() 0/ -> read
65*Message M() 0/ -> TooMany Messages 66
State S{}/Begin/~1024*Default/Begin/End/~End/ -> read
State S{}/Begin/~1025*Default/Begin/End/~End/ -> TooMany Handlers 3076
State S{}/Begin/~512*Default/Begin/End/~End/State S{}/Begin/~513*On M()/Begin/End/~End/ -> TooMany Handlers 3079
8*Info x Int/ -> read
9*Info x Int/ -> TooMany Infos 10
State S{}/Begin/Default/Begin/~8*Local x Int/~End/End/ -> read
State S{}/Begin/Default/Begin/~9*Local x Int/~End/End/ -> TooMany Locals 14
State S{}/Begin/Default/Begin/~8*Local x Int/~End/On M()/Begin/~8*Local x Int/~End/End/ -> read
Message M(Int, Bool, Node, Set) 0/ -> read
Message M(Int, Int, Int, Int, Int) 0/ -> TooMany Args 2
State S{a Int, b Int, c Int, d Int; C}/Begin/End/ -> read
State S{a Int, b Int, c Int, d Int, e Int}/Begin/End/ -> TooMany Args 2
State S{}/Begin/On M(a, b, c, d, e)/Begin/Send(src, M, 1, 2, 3, 4, 5)/SetState(S{1, 2, 3, 4, 5})/Suspend(L, S{1, 2, 3, 4, 5; L})/End/End/ -> read
State S{}/Begin/Default/Begin/x := ~15*Not(~y~15*)~/End/End/ -> read
State S{}/Begin/Default/Begin/x := ~16*Not(~y~16*)~/End/End/ -> TooMany Depth 6
State S{}/Begin/Default/Begin/If ~15*Not(~y~15*)~/Begin/End/End/End/ -> read
State S{}/Begin/Default/Begin/If ~16*Not(~y~16*)~/Begin/End/End/End/ -> TooMany Depth 6
State S{}/Begin/Default/Begin/Send(~15*Not(~y~15*)~, M)/End/End/ -> read
State S{}/Begin/Default/Begin/Send(~16*Not(~y~16*)~, M)/End/End/ -> TooMany Depth 6
State S{}/Begin/Default/Begin/Send(src, M, 1, ~15*Not(~y~15*)~)/End/End/ -> read
State S{}/Begin/Default/Begin/Send(src, M, 1, ~16*Not(~y~16*)~)/End/End/ -> TooMany Depth 6
State S{}/Begin/Default/Begin/WakeUp/SendAll(~16*Not(~y~16*)~, M)/End/End/ -> TooMany Depth 7
State S{}/Begin/Default/Begin/SetState(S{1, ~15*Not(~y~15*)~})/End/End/ -> read
State S{}/Begin/Default/Begin/SetState(S{1, ~16*Not(~y~16*)~})/End/End/ -> TooMany Depth 6
State S{}/Begin/Default/Begin/Suspend(L, S{~15*Not(~y~15*)~; L})/End/End/ -> read
State S{}/Begin/Default/Begin/Suspend(L, S{~16*Not(~y~16*)~; L})/End/End/ -> TooMany Depth 6
State S{}/Begin/Default/Begin/x := ~15*(~1~15* + 1)~/End/End/ -> read
State S{}/Begin/Default/Begin/x := ~16*(~1~16* + 1)~/End/End/ -> TooMany Depth 6
State S{}/Begin/Default/Begin/x := ~15*Has(s, ~y~15*)~/End/End/ -> read
State S{}/Begin/Default/Begin/x := ~16*Has(s, ~y~16*)~/End/End/ -> TooMany Depth 6
State S{}/Begin/Default/Begin/x := ~10000*Not(~y~10000*)~/End/End/ -> TooMany Depth 6
State S{}/Begin/Default/Begin/x := ~10000*Not(~y~9999*)~/End/End/ -> BadLine 6
State S{}/Begin/Default/Begin/~16*If x/Begin/~16*End/~End/End/ -> read
State S{}/Begin/Default/Begin/~17*If x/Begin/~17*End/~End/End/ -> TooMany Nest 38
State S{}/Begin/Default/Begin/~16*If x/Begin/End/Else/Begin/~16*End/~End/End/ -> read
State S{}/Begin/Default/Begin/~17*If x/Begin/End/Else/Begin/~17*End/~End/End/ -> TooMany Nest 86
State S{}/Begin/Default/Begin/~40*If x/Begin/End/~End/End/ -> read
State S{}/Begin/Default/Begin/~10000*If x/Begin/~10000*End/~End/End/ -> TooMany Nest 38
State S{}/Begin/Default/Begin/~10000*If x/Begin/~9999*End/~End/End/ -> BadNest 30007
Message M(Int, Int, Int, Int, Int) 0/Begin/If/Else 1/ -> BadLine 4
/# note/Message M(Int, Int, Int, Int, Int) 0//Begin/End/ -> BadNest 6
Message M(Int, Int, Int, Int, Int) 0/State S{}/ -> BadNest 4
Message M() 0/Message M(Int, Int, Int, Int, Int) 0/State S{a Int, b Int, c Int, d Int, e Int}/Begin/End/ -> TooMany Args 3
9*Info x Int/~State S{a Int, b Int, c Int, d Int, e Int}/Begin/End/ -> TooMany Infos 10
64*State S{}/Begin/End/~State S{a Int, b Int, c Int, d Int, e Int}/Begin/End/ -> TooMany States 194
64*Message M() 0/~Message M(Int, Int, Int, Int, Int) 0/ -> TooMany Messages 66
State S{}/Begin/Default/Begin/~16*If x/Begin/~If ~16*Not(~y~16*)~/Begin/~17*End/~End/End/ -> TooMany Depth 38";

/// The same in profile 2 alone.
pub const ANSWERS_IN_TWO: &str = "ForEach := 1/ -> BadLine 2
Info ForEach Int/ -> BadLine 2
ForEach x/ -> BadLine 2
ForEach 1 x/ -> BadLine 2
ForEach x y z/ -> BadLine 2
ForEach x := y/ -> BadLine 2
ForEach x y/ -> BadNest 2
State S{}/Begin/Default/Begin/ForEach x y/End/ -> BadNest 7
State S{}/Begin/Default/Begin/ForEach x y/Begin/Local z Int/ -> BadNest 8
State S{}/Begin/Default/Begin/ForEach x y/Begin/End/Else/ -> BadNest 9
State S{}/Begin/Default/Begin/ForEach x y/Begin/End/End/End/ -> read
State S{}/Begin/Default/Begin/~4*ForEach x y/Begin/End/~End/End/ -> read
State S{}/Begin/Default/Begin/~5*ForEach x y/Begin/End/~End/End/ -> TooMany Loops 18
State S{}/Begin/Default/Begin/~4*ForEach x y/Begin/~4*End/~End/End/ -> read
State S{}/Begin/Default/Begin/~5*ForEach x y/Begin/~5*End/~End/End/ -> TooMany Loops 14
State S{}/Begin/Default/Begin/~4*ForEach x y/Begin/End/~End/On M()/Begin/~4*ForEach x y/Begin/End/~End/End/ -> read
State S{}/Begin/Default/Begin/~12*If x/Begin/~4*ForEach x y/Begin/~16*End/~End/End/ -> read
State S{}/Begin/Default/Begin/~13*If x/Begin/~4*ForEach x y/Begin/~17*End/~End/End/ -> TooMany Nest 38
State S{}/Begin/Default/Begin/~4*ForEach x y/Begin/End/~16*If x/Begin/~ForEach x y/Begin/~17*End/~End/End/ -> TooMany Nest 50
State S{}/Begin/Default/Begin/ForEach x ~15*Not(~y~15*)~/Begin/End/End/End/ -> read
State S{}/Begin/Default/Begin/ForEach x ~16*Not(~y~16*)~/Begin/End/End/End/ -> TooMany Depth 6";
