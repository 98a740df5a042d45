ghost use Rattle.std.specs.Prelude.{◌≡◌};
ghost use Rattle.stache_l_text.specs.Text.{text_of_l};

/// The text of Stache_L, in its canonical spelling.
pub const STACHE_L: &str = "Protocol Stache_L 2
Message GET_RO() 0
Message GET_RW() 0
Message DATA_RO() 1 data
Message DATA_RW() 1 data
Message PUT() 1 data
Message INV() 1
Message ACK() 1
Message RECALL() 1
Info sharers Set
Info owner Node
Info acks Int
HomeStart Home_RW ReadWrite
CacheStart Cache_Inv Invalid
State Home_RW{}
Begin
  On GET_RO()
  Begin
    sharers := One(src)
    SetTag(ReadOnly)
    Send(src, DATA_RO)
    SetState(Home_RO{})
  End
  On GET_RW()
  Begin
    owner := src
    SetTag(Invalid)
    Send(src, DATA_RW)
    SetState(Home_Excl{})
  End
  Default
  Begin
    Error(Unexpected)
  End
End
State Home_RO{}
Begin
  On RD_FAULT()
  Begin
    WakeUp
  End
  On WR_FAULT()
  Begin
    acks := Count(sharers)
    SendAll(sharers, INV)
    sharers := Empty
    Suspend(L, Home_Acks{; L})
    SetTag(ReadWrite)
    WakeUp
    SetState(Home_RW{})
  End
  On GET_RO()
  Begin
    Local x Node
    If (Count(sharers) = 2)
    Begin
      ForEach x sharers
      Begin
      End
      sharers := Without(sharers, x)
      acks := 1
      Send(x, INV)
      Suspend(L, Home_Acks{; L})
    End
    sharers := With(sharers, src)
    Send(src, DATA_RO)
  End
  On GET_RW()
  Begin
    sharers := Without(sharers, src)
    acks := Count(sharers)
    If (0 < acks)
    Begin
      SendAll(sharers, INV)
      sharers := Empty
      Suspend(L, Home_Acks{; L})
    End
    owner := src
    SetTag(Invalid)
    Send(src, DATA_RW)
    SetState(Home_Excl{})
  End
  Default
  Begin
    Error(Unexpected)
  End
End
State Home_Excl{}
Begin
  On RD_FAULT()
  Begin
    Send(owner, RECALL)
    Suspend(L, Home_Put{; L})
    SetTag(ReadWrite)
    WakeUp
    SetState(Home_RW{})
  End
  On WR_FAULT()
  Begin
    Send(owner, RECALL)
    Suspend(L, Home_Put{; L})
    SetTag(ReadWrite)
    WakeUp
    SetState(Home_RW{})
  End
  On GET_RO()
  Begin
    Send(owner, RECALL)
    Suspend(L, Home_Put{; L})
    sharers := One(src)
    SetTag(ReadOnly)
    Send(src, DATA_RO)
    SetState(Home_RO{})
  End
  On GET_RW()
  Begin
    Send(owner, RECALL)
    Suspend(L, Home_Put{; L})
    owner := src
    Send(src, DATA_RW)
    SetState(Home_Excl{})
  End
  Default
  Begin
    Error(Unexpected)
  End
End
State Home_Acks{; C}
Begin
  On ACK()
  Begin
    acks := (acks - 1)
    If (acks = 0)
    Begin
      Resume(C)
    End
  End
  Default
  Begin
    Enqueue
  End
End
State Home_Put{; C}
Begin
  On PUT()
  Begin
    Install
    Resume(C)
  End
  Default
  Begin
    Enqueue
  End
End
State Cache_Inv{}
Begin
  On RD_FAULT()
  Begin
    Send(home, GET_RO)
    Suspend(L, Cache_Wait_RO{; L})
    WakeUp
    SetState(Cache_RO{})
  End
  On WR_FAULT()
  Begin
    Send(home, GET_RW)
    Suspend(L, Cache_Wait_RW{; L})
    WakeUp
    SetState(Cache_RW{})
  End
  Default
  Begin
    Error(Unexpected)
  End
End
State Cache_RO{}
Begin
  On WR_FAULT()
  Begin
    SetTag(Invalid)
    Send(home, GET_RW)
    Suspend(L, Cache_Wait_RW{; L})
    WakeUp
    SetState(Cache_RW{})
  End
  On INV()
  Begin
    SetTag(Invalid)
    Send(src, ACK)
    SetState(Cache_Inv{})
  End
  Default
  Begin
    Error(Unexpected)
  End
End
State Cache_RW{}
Begin
  On RECALL()
  Begin
    SetTag(Invalid)
    Send(src, PUT)
    SetState(Cache_Inv{})
  End
  Default
  Begin
    Error(Unexpected)
  End
End
State Cache_Wait_RO{; C}
Begin
  On DATA_RO()
  Begin
    Install
    SetTag(ReadOnly)
    Resume(C)
  End
  Default
  Begin
    Error(Unexpected)
  End
End
State Cache_Wait_RW{; C}
Begin
  On DATA_RW()
  Begin
    Install
    SetTag(ReadWrite)
    Resume(C)
  End
  On INV()
  Begin
    Send(src, ACK)
  End
  Default
  Begin
    Error(Unexpected)
  End
End
";

/// The text of Stache_L, in its canonical spelling.
#[tactic(auto, unfolding(crate::specs::Text::text_of_l))]
pub fn stache_l_text() -> &'static [u8]
    ensures { result.now ≡ text_of_l }
{
    STACHE_L.as_bytes()
}
