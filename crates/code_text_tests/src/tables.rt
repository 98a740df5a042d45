pub const DEAF_CODE: &str = "handler H Default slots 1
  0 Done
handler I RD_FAULT slots 1
  1 Home
  2 Send GET
  3 Done
handler I Default slots 1
  4 Done
end
";

pub const WALK_CODE: &str = "handler H GET slots 3
  0 Get 0
  1 One
  2 Home
  3 With
  4 Put 2
  5 EachNext 1 2 10
  6 Get 1
  7 Send ASK
  8 Suspend W 0
  9 JumpBack 5
  10 Install
  11 Get 0
  12 Send DONE
  13 Done
rest 0 at 9 live 0 2
handler H Default slots 1
  14 Done
handler W ASK slots 1
  15 Get 0
  16 Send YES
  17 Done
handler W YES slots 1
  18 Resume
  19 Done
handler W Default slots 1
  20 Enqueue
  21 Done
handler I RD_FAULT slots 1
  22 Home
  23 Send GET
  24 Done
handler I ASK slots 1
  25 Get 0
  26 Send YES
  27 Done
handler I DONE slots 1
  28 Install
  29 Tag ReadWrite
  30 Wake
  31 Done
handler I Default slots 1
  32 Done
end
";

/// Branches, two loops, infos, arguments of a state and of a message, errors.
pub const ALL: &str = "Protocol All 2
Message GO(Int, Node) 0
Message DATA(Int, Node) 1 data
Info count Int
Info who Node
Info sharers Set
Info flag Bool
HomeStart H ReadWrite
CacheStart H Invalid
State H{}
Begin
On GO(n, m)
Begin
Local y Int
Local x Node
y := (n + 1)
If (flag & (y < 3))
Begin
ForEach x sharers
Begin
Send(x, DATA, y, m)
End
Suspend(L, W{y; L})
count := y
End
Else
Begin
ForEach x With(One(m), self)
Begin
Send(x, GO, 0, home)
End
flag := True
Error(Odd)
End
End
Default
Begin
Error(Even)
End
End
State W{a Int; C}
Begin
On DATA(k, m)
Begin
If Not((a = k))
Begin
SendAll(Without(sharers, src), GO, Count(sharers), who)
End
sharers := Empty
Install
Resume(C)
End
Default
Begin
Error(Odd)
End
End
";

pub const ALL_CODE: &str = "handler H GO slots 7
  0 Get 1
  1 Const 1
  2 Add
  3 Put 3
  4 GetInfo 3
  5 Get 3
  6 Const 3
  7 Lt
  8 And
  9 JumpIfNot 23
  10 GetInfo 2
  11 Put 5
  12 EachNext 4 5 18
  13 Get 4
  14 Get 3
  15 Get 2
  16 Send DATA
  17 JumpBack 12
  18 Get 3
  19 Suspend W 0
  20 Get 3
  21 PutInfo 0
  22 Jump 37
  23 Get 2
  24 One
  25 Self
  26 With
  27 Put 6
  28 EachNext 4 6 34
  29 Get 4
  30 Const 0
  31 Home
  32 Send GO
  33 JumpBack 28
  34 Const True
  35 PutInfo 3
  36 Fail Odd
  37 Done
rest 0 at 20 live 3
handler H Default slots 1
  38 Fail Even
  39 Done
handler W DATA slots 4
  40 Get 1
  41 Get 2
  42 Eq
  43 Not
  44 JumpIfNot 52
  45 GetInfo 2
  46 Get 0
  47 Without
  48 GetInfo 2
  49 Count
  50 GetInfo 1
  51 SendAll GO
  52 Const Empty
  53 PutInfo 2
  54 Install
  55 Resume
  56 Done
handler W Default slots 2
  57 Fail Odd
  58 Done
end
";
