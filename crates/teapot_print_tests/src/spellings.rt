//! Lines in some spelling, and in the canonical one.
//!
//! In a row `/` ends a line, and ` -> ` stands between the two spellings.

/// Statements, at the indent of a handler's body.
pub const STATEMENTS: &str = "x:=1 -> x := 1
x := 007 -> x := 7
x := 000 -> x := 0
x := 4294967295 -> x := 4294967295
x:=True -> x := True
x:=False -> x := False
x:=Empty -> x := Empty
x:=src -> x := src
x:=self -> x := self
x:=home -> x := home
x:=If_ -> x := If_
x:=(a+b) -> x := (a + b)
x:=(a-b) -> x := (a - b)
x:=(a=b) -> x := (a = b)
x:=(a<>b) -> x := (a <> b)
x:=(a<b) -> x := (a < b)
x:=(a<=b) -> x := (a <= b)
x:=(a&b) -> x := (a & b)
x:=(a|b) -> x := (a | b)
x:=((1+2)-(3+4)) -> x := ((1 + 2) - (3 + 4))
x:=One ( src ) -> x := One(src)
x:=Not(Not(True)) -> x := Not(Not(True))
x:=Count(Without(s,src)) -> x := Count(Without(s, src))
x:=With ( ( a&b ) , Has(s , c) ) -> x := With((a & b), Has(s, c))
Send ( src , M ) -> Send(src, M)
Send(One(a),M,1,(b|c),2) -> Send(One(a), M, 1, (b | c), 2)
SendAll((a&b),M) -> SendAll((a & b), M)
SendAll(s,M,x) -> SendAll(s, M, x)
SetTag ( Invalid ) -> SetTag(Invalid)
SetTag(ReadOnly) -> SetTag(ReadOnly)
SetState ( S { } ) -> SetState(S{})
SetState(S{a,(b+1)}) -> SetState(S{a, (b + 1)})
Suspend(L,S{;L}) -> Suspend(L, S{; L})
Suspend ( L , S { a , b ; C } ) -> Suspend(L, S{a, b; C})
If(a=b)/Begin/If Not(a)/Begin/WakeUp/End/End/Resume ( C ) -> \
    If (a = b)/    Begin/      If Not(a)/      Begin/        WakeUp/      End/    End/    Resume(C)
If a/Begin/End/Else/Begin/Install/End/Error ( Bad ) -> \
    If a/    Begin/    End/    Else/    Begin/      Install/    End/    Error(Bad)
Local x Int/Local ok Bool/Enqueue/WakeUp -> Local x Int/    Local ok Bool/    Enqueue/    WakeUp";

/// Statements of profile 2.
pub const LOOPS: &str = "ForEach x s/Begin/End -> ForEach x s/    Begin/    End
ForEach x(a&b)/Begin/Enqueue/End -> ForEach x(a & b)/    Begin/      Enqueue/    End
ForEach x One ( src )/Begin/ForEach y Empty/Begin/End/End/Install -> \
    ForEach x One(src)/    Begin/      ForEach y Empty/      Begin/      End/    End/    Install";

/// Declarations behind the first line.
pub const DECLARATIONS: &str = "Message M ( ) 00/ -> Message M() 0/
Message M(Int,Bool,Node,Set)01 data/ -> Message M(Int, Bool, Node, Set) 1 data/
Info x\tInt/Info y Set/ -> Info x Int/Info y Set/
HomeStart H Invalid/CacheStart H ReadOnly/HomeStart I ReadWrite/ -> \
    HomeStart H Invalid/CacheStart H ReadOnly/HomeStart I ReadWrite/
State S { }/Begin/End/State T{;C}/Begin/End -> State S{}/Begin/End/State T{; C}/Begin/End/
State S{a Int,b Bool,c Node,d Set;C}/Begin/End -> State S{a Int, b Bool, c Node, d Set; C}/Begin/End/
State S{a Int}/Begin/On M ( a , b )/Begin/End/On M()/Begin/End/End -> \
    State S{a Int}/Begin/  On M(a, b)/  Begin/  End/  On M()/  Begin/  End/End/
State S{}/Begin/On RD_FAULT()/Begin/End/On WR_FAULT(x)/Begin/End/Default/Begin/End/End -> \
    State S{}/Begin/  On RD_FAULT()/  Begin/  End/  On WR_FAULT(x)/  Begin/  End/  Default/  Begin/  End/End/";

/// Whole texts.
pub const TEXTS: &str = "Protocol\tP -> Protocol P/
# P//Protocol P 02 # two -> Protocol P 2/
Protocol ForEach/Info ForEach Int/ -> Protocol ForEach/Info ForEach Int/
Protocol aaaaaaaabbbbbbbbccccccccddddddddeeeeeeeeffffffffgggggggghhhhhhhh/ -> \
    Protocol aaaaaaaabbbbbbbbccccccccddddddddeeeeeeeeffffffffgggggggghhhhhhhh/";
