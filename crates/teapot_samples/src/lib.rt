//! Protocols in their canonical spelling, for tests of several crates.
#![tactic(auto)]

/// The protocol that is shipped, in its canonical spelling.
pub use shipped_text::STACHE;

/// A home that answers nothing.
pub const DEAF: &str = "Protocol Deaf
Message GET() 0
HomeStart H ReadWrite
CacheStart I Invalid
State H{}
Begin
  Default
  Begin
  End
End
State I{}
Begin
  On RD_FAULT()
  Begin
    Send(home, GET)
  End
  Default
  Begin
  End
End
";

/// Two nodes that answer each other without end.
pub const PING_PONG: &str = "Protocol PingPong
Message PING() 0
HomeStart H ReadWrite
CacheStart I Invalid
State H{}
Begin
  Default
  Begin
    Send(src, PING)
  End
End
State I{}
Begin
  On RD_FAULT()
  Begin
    Send(home, PING)
  End
  Default
  Begin
    Send(src, PING)
  End
End
";

/// A home that gives its block away and keeps it: the memory breaks.
pub const DOUBLE: &str = "Protocol Double
Message GET() 0
Message DATA() 1 data
HomeStart H ReadWrite
CacheStart I Invalid
State H{}
Begin
  On GET()
  Begin
    Send(src, DATA)
  End
  Default
  Begin
    Error(Unexpected)
  End
End
State I{}
Begin
  On RD_FAULT()
  Begin
    Send(home, GET)
  End
  On WR_FAULT()
  Begin
    Send(home, GET)
  End
  On DATA()
  Begin
    Install
    SetTag(ReadWrite)
    WakeUp
  End
  Default
  Begin
    Error(Unexpected)
  End
End
";

/// Suspensions within each other, one more than there may be.
pub const DEEP: &str = "Protocol Deep
Message NEST() 0
HomeStart H ReadWrite
CacheStart I Invalid
State H{}
Begin
  On NEST()
  Begin
    Suspend(L, W{; L})
  End
  Default
  Begin
  End
End
State W{; C}
Begin
  On NEST()
  Begin
    Suspend(L, W{; L})
  End
  Default
  Begin
  End
End
State I{}
Begin
  On RD_FAULT()
  Begin
    Send(home, NEST)
    Send(home, NEST)
    Send(home, NEST)
    Send(home, NEST)
    Send(home, NEST)
    Send(home, NEST)
    Send(home, NEST)
    Send(home, NEST)
    Send(home, NEST)
  End
  Default
  Begin
  End
End
";

/// A state with a continuation that it drops.
pub const DROP: &str = "Protocol Drop
Message GO() 0
HomeStart H ReadWrite
CacheStart H ReadWrite
State H{}
Begin
  Default
  Begin
  End
End
State W{; C}
Begin
  On GO()
  Begin
    SetState(H{})
  End
  Default
  Begin
  End
End
";

/// A loop with a suspension in it, of profile 2.
pub const WALK: &str = "Protocol Walk 2
Message GET() 0 data
Message ASK() 1
Message YES() 1
Message DONE() 1 data
HomeStart H ReadWrite
CacheStart I Invalid
State H{}
Begin
  On GET()
  Begin
    Local x Node
    ForEach x With(One(src), home)
    Begin
      Send(x, ASK)
      Suspend(L, W{; L})
    End
    Install
    Send(src, DONE)
  End
  Default
  Begin
  End
End
State W{; C}
Begin
  On ASK()
  Begin
    Send(src, YES)
  End
  On YES()
  Begin
    Resume(C)
  End
  Default
  Begin
    Enqueue
  End
End
State I{}
Begin
  On RD_FAULT()
  Begin
    Send(home, GET)
  End
  On ASK()
  Begin
    Send(src, YES)
  End
  On DONE()
  Begin
    Install
    SetTag(ReadWrite)
    WakeUp
  End
  Default
  Begin
  End
End
";
