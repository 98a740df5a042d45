ghost use Rattle.std.specs.Prelude.{◌^◌, ◌<◌, IfOk, length};
ghost use Rattle.compiled_meaning.specs.Whole.{IsCode};

use handler_code::Code;
use std::alloc::Global;
use std::test::Fail;
use suspend_split::split;
use teapot_check::check;
use teapot_parse::{parse, read_trees_are_given, texts_have_text_lines};
use teapot_tree::Checked;
use tw_lex::lines;

/// The protocol of a text that is accepted.
pub fn protocol(alloc: Global, text: &[u8]) -> Result<Checked, Fail> {
    if text.len() > 1 << 20 {
        return Err(Fail::new("a protocol that is too long"));
    }
    texts_have_text_lines();
    read_trees_are_given();
    let found = lines(alloc, text)?;
    let protocol = parse(alloc, found.list, found.all)?;
    Ok(check(alloc, protocol)?)
}

/// The code of a protocol.
pub fn compiled(alloc: Global, p: &Checked) -> Result<Code, Fail>
    ensures code { IfOk result (λ code. IsCode p.now code) }
    ensures short { IfOk result (λ code. length code.ops < 2 ^ 22) }
{
    Ok(split(alloc, p)?)
}

/// All kinds of statements and values of profile 1, with arguments of states and variables that live across suspensions.
pub const EACH_KIND: &str = "Protocol EachKind
Message GO(Int, Bool, Node, Set) 0 data
Message UP(Int) 1
Message OFF() 1 data
Info n Int
Info b Bool
Info d Node
Info s Set
HomeStart A ReadWrite
CacheStart B Invalid
State A{}
Begin
  On GO(i, j, k, l)
  Begin
    Local x Int
    Local y Set
    x := (i + n)
    y := With(l, src)
    If (i <= 4)
    Begin
      Install
    End
    If (j & (2 < i))
    Begin
      Send(k, UP, (x - 3))
      Suspend(L, W{x, y; L})
      n := (n + x)
      Send(src, GO, x, b, d, y)
    End
    Else
    Begin
      SendAll(Without(y, home), GO, i, Not(j), self, l)
      SetTag(ReadOnly)
    End
    If (n < 100)
    Begin
      SetState(B{})
    End
    Else
    Begin
      n := 0
    End
    d := k
  End
  On WR_FAULT()
  Begin
    WakeUp
    s := With(s, home)
  End
  On RD_FAULT()
  Begin
    If ((Count(s) <= 2) | Has(s, src))
    Begin
      Error(Crowded)
    End
    SetTag(Invalid)
  End
  Default
  Begin
    Enqueue
  End
End
State B{}
Begin
  On OFF()
  Begin
    Local z Node
    z := src
    Send(home, OFF)
    Suspend(L, W{n, One(z); L})
    SetTag(ReadWrite)
    b := (z <> d)
    Suspend(M, V{z; M})
    d := z
    Send(z, OFF)
  End
  On UP(i)
  Begin
    n := i
    SetState(A{})
  End
  Default
  Begin
    Error(Unknown)
  End
End
State W{x Int, y Set; C}
Begin
  On UP(i)
  Begin
    n := (i + x)
    s := y
    Resume(C)
  End
  On GO(i, j, k, l)
  Begin
    Suspend(L, V{k; L})
    n := (n + i)
    s := With(y, k)
    If j
    Begin
      SetState(W{n, s})
    End
    Else
    Begin
      Resume(C)
    End
  End
  Default
  Begin
    Enqueue
  End
End
State V{k Node; C}
Begin
  On OFF()
  Begin
    d := k
    Resume(C)
  End
  On WR_FAULT()
  Begin
    Suspend(L, W{7, One(k); L})
    Send(k, UP, n)
    SetState(V{d})
  End
  Default
  Begin
    Error(Waiting)
  End
End
";

/// Loops of profile 2 within each other, with suspensions in them and behind them.
pub const LOOPS: &str = "Protocol Loops 2
Message GO(Set, Set) 0 data
Message UP() 1
Message LIST(Int, Node) 0 data
Info n Int
Info s Set
HomeStart A ReadWrite
CacheStart A Invalid
State A{}
Begin
  On GO(l, m)
  Begin
    Local x Node
    Local y Node
    Local count Int
    ForEach x l
    Begin
      count := (count + 1)
      ForEach y Without(m, x)
      Begin
        If (Count(m) < 3)
        Begin
          Suspend(L, W{count, x; L})
          n := (n + 1)
        End
        Else
        Begin
          s := With(s, y)
        End
      End
      Send(x, LIST, count, y)
      Suspend(M, W{n, y; M})
      SetTag(ReadOnly)
    End
    Install
    ForEach y s
    Begin
      Send(y, UP)
    End
    s := Empty
    n := count
  End
  On LIST(i, k)
  Begin
    Local x Node
    ForEach x With(One(k), src)
    Begin
      Send(x, UP)
    End
    If (i < 2)
    Begin
      SetState(A{})
    End
  End
  Default
  Begin
    WakeUp
  End
End
State W{i Int, k Node; C}
Begin
  On UP()
  Begin
    Resume(C)
  End
  On GO(l, m)
  Begin
    Local x Node
    ForEach x m
    Begin
      Suspend(L, W{i, x; L})
      Send(k, UP)
    End
    Install
    Resume(C)
  End
  On RD_FAULT()
  Begin
    Error(Unexpected)
  End
  Default
  Begin
    Enqueue
  End
End
";
