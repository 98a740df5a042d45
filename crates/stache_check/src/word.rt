ghost use Rattle.std.specs.Prelude.{◌≡◌, ◌↔◌, IsTrue};

use tw_base::Name;

/// The names that occur.
#[derive(Clone, Copy)]
pub enum Word {
    Stache,
    StacheD,
    StacheL,
    Sharers,
    Owner,
    Acks,
    C,
    L,
    X,
    Unexpected,
    GetRo,
    GetRw,
    DataRo,
    DataRw,
    Put,
    Inv,
    Ack,
    Recall,
    RecallRo,
    PutRo,
    HomeRw,
    HomeRo,
    HomeExcl,
    HomeAcks,
    HomePut,
    CacheInv,
    CacheRo,
    CacheRw,
    CacheWaitRo,
    CacheWaitRw,
}

impl Word {
    ghost use Rattle.stache_check.specs.Words.{word_of};

    fn bytes(self) -> &'static [u8]
        ensures { result.now ≡ word_of self }
    {
        match self {
            Word::Stache => b"Stache",
            Word::StacheD => b"Stache_D",
            Word::StacheL => b"Stache_L",
            Word::Sharers => b"sharers",
            Word::Owner => b"owner",
            Word::Acks => b"acks",
            Word::C => b"C",
            Word::L => b"L",
            Word::X => b"x",
            Word::Unexpected => b"Unexpected",
            Word::GetRo => b"GET_RO",
            Word::GetRw => b"GET_RW",
            Word::DataRo => b"DATA_RO",
            Word::DataRw => b"DATA_RW",
            Word::Put => b"PUT",
            Word::Inv => b"INV",
            Word::Ack => b"ACK",
            Word::Recall => b"RECALL",
            Word::RecallRo => b"RECALL_RO",
            Word::PutRo => b"PUT_RO",
            Word::HomeRw => b"Home_RW",
            Word::HomeRo => b"Home_RO",
            Word::HomeExcl => b"Home_Excl",
            Word::HomeAcks => b"Home_Acks",
            Word::HomePut => b"Home_Put",
            Word::CacheInv => b"Cache_Inv",
            Word::CacheRo => b"Cache_RO",
            Word::CacheRw => b"Cache_RW",
            Word::CacheWaitRo => b"Cache_Wait_RO",
            Word::CacheWaitRw => b"Cache_Wait_RW",
        }
    }

    /// Whether it is this name.
    pub fn is(self, name: &Name) -> bool
        ensures { IsTrue result ↔ (name.now ≡ word_of self) }
    {
        name.is(self.bytes())
    }
}
