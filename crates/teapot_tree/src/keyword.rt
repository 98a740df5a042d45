ghost use Rattle.std.specs.Prelude.{◌≡◌, ◌&&◌, ◌==◌, codes, if◌then◌else◌, map, Some, None};
ghost use Rattle.std.specs.Str.{bytes_eq};
ghost use Rattle.teapot_tree.specs.declared.keyword.Keyword.TheVariants.{ForEach};
ghost use Rattle.teapot_tree.specs.Keywords.{keyword_of, spelled, with_letter};

/// A reserved word.
#[derive(Clone, Copy, Debug, PartialEq, Eq)]
pub enum Keyword {
    Protocol,
    Message,
    Info,
    HomeStart,
    CacheStart,
    State,
    On,
    Default,
    Local,
    Begin,
    End,
    If,
    Else,
    Send,
    SendAll,
    SetTag,
    SetState,
    Suspend,
    Resume,
    Error,
    Install,
    Enqueue,
    WakeUp,
    ForEach,
    Int,
    Bool,
    Node,
    Set,
    Invalid,
    ReadOnly,
    ReadWrite,
    True,
    False,
    Empty,
    Src,
    SelfNode,
    Home,
    One,
    Not,
    Count,
    Has,
    With,
    Without,
    Data,
    RdFault,
    WrFault,
}

fn spelled(table: &[(&[u8], Keyword)], word: &[u8]) -> Option<Keyword>
    ensures { result ≡ spelled (map (λ e. (e.0.now, e.1)) table.now) word.now None }
{
    for entry in table {
        if word == entry.0 {
            return Some(entry.1);
        }
    }
    None
}

fn for_each(profile: u8, word: &[u8]) -> Option<Keyword>
    ensures { result ≡ (if (profile == 2) && bytes_eq word.now (codes "ForEach") then Some ForEach else None) }
{
    (profile == 2 && word == b"ForEach".as_slice()).then_some(Keyword::ForEach)
}

/// The keyword, where it begins with the letter and is one in both profiles.
#[tactic(auto, unfolding(crate::specs::Keywords::with_letter))]
fn with_letter(letter: u8, word: &[u8]) -> Option<Keyword>
    ensures { result ≡ spelled (with_letter letter) word.now None }
{
    match letter {
        b'P' => spelled(&[(b"Protocol".as_slice(), Keyword::Protocol)], word),
        b'M' => spelled(&[(b"Message".as_slice(), Keyword::Message)], word),
        b'I' => spelled(
            &[
                (b"Info".as_slice(), Keyword::Info),
                (b"If".as_slice(), Keyword::If),
                (b"Install".as_slice(), Keyword::Install),
                (b"Int".as_slice(), Keyword::Int),
                (b"Invalid".as_slice(), Keyword::Invalid),
            ],
            word,
        ),
        b'H' => spelled(
            &[
                (b"HomeStart".as_slice(), Keyword::HomeStart),
                (b"Has".as_slice(), Keyword::Has),
            ],
            word,
        ),
        b'C' => spelled(
            &[
                (b"CacheStart".as_slice(), Keyword::CacheStart),
                (b"Count".as_slice(), Keyword::Count),
            ],
            word,
        ),
        b'S' => spelled(
            &[
                (b"State".as_slice(), Keyword::State),
                (b"Send".as_slice(), Keyword::Send),
                (b"SendAll".as_slice(), Keyword::SendAll),
                (b"SetTag".as_slice(), Keyword::SetTag),
                (b"SetState".as_slice(), Keyword::SetState),
                (b"Suspend".as_slice(), Keyword::Suspend),
                (b"Set".as_slice(), Keyword::Set),
            ],
            word,
        ),
        b'O' => spelled(
            &[
                (b"On".as_slice(), Keyword::On),
                (b"One".as_slice(), Keyword::One),
            ],
            word,
        ),
        b'D' => spelled(&[(b"Default".as_slice(), Keyword::Default)], word),
        b'L' => spelled(&[(b"Local".as_slice(), Keyword::Local)], word),
        b'B' => spelled(
            &[
                (b"Begin".as_slice(), Keyword::Begin),
                (b"Bool".as_slice(), Keyword::Bool),
            ],
            word,
        ),
        b'E' => spelled(
            &[
                (b"End".as_slice(), Keyword::End),
                (b"Else".as_slice(), Keyword::Else),
                (b"Error".as_slice(), Keyword::Error),
                (b"Enqueue".as_slice(), Keyword::Enqueue),
                (b"Empty".as_slice(), Keyword::Empty),
            ],
            word,
        ),
        b'R' => spelled(
            &[
                (b"Resume".as_slice(), Keyword::Resume),
                (b"ReadOnly".as_slice(), Keyword::ReadOnly),
                (b"ReadWrite".as_slice(), Keyword::ReadWrite),
                (b"RD_FAULT".as_slice(), Keyword::RdFault),
            ],
            word,
        ),
        b'W' => spelled(
            &[
                (b"WakeUp".as_slice(), Keyword::WakeUp),
                (b"With".as_slice(), Keyword::With),
                (b"Without".as_slice(), Keyword::Without),
                (b"WR_FAULT".as_slice(), Keyword::WrFault),
            ],
            word,
        ),
        b'N' => spelled(
            &[
                (b"Node".as_slice(), Keyword::Node),
                (b"Not".as_slice(), Keyword::Not),
            ],
            word,
        ),
        b'T' => spelled(&[(b"True".as_slice(), Keyword::True)], word),
        b'F' => spelled(&[(b"False".as_slice(), Keyword::False)], word),
        b's' => spelled(
            &[
                (b"src".as_slice(), Keyword::Src),
                (b"self".as_slice(), Keyword::SelfNode),
            ],
            word,
        ),
        b'h' => spelled(&[(b"home".as_slice(), Keyword::Home)], word),
        b'd' => spelled(&[(b"data".as_slice(), Keyword::Data)], word),
        _ => None,
    }
}

/// The keyword that the bytes spell, where they spell one of this profile. `ForEach` is one in profile 2 alone.
#[tactic(auto)]
pub fn keyword_of(profile: u8, word: &[u8]) -> Option<Keyword>
    ensures { result ≡ keyword_of profile word.now }
{
    with_letter(*word.first()?, word).or(for_each(profile, word))
}
