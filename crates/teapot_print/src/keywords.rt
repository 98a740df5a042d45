ghost use Rattle.std.specs.Prelude.{◌≡◌};
ghost use Rattle.teapot_tree.specs.Keywords.{spelling_of};

use teapot_tree::Keyword;

/// The bytes of a keyword.
pub fn spelling_of(key: Keyword) -> &'static [u8]
    ensures { result.now ≡ spelling_of key }
{
    match key {
        Keyword::Protocol => b"Protocol",
        Keyword::Message => b"Message",
        Keyword::Info => b"Info",
        Keyword::HomeStart => b"HomeStart",
        Keyword::CacheStart => b"CacheStart",
        Keyword::State => b"State",
        Keyword::On => b"On",
        Keyword::Default => b"Default",
        Keyword::Local => b"Local",
        Keyword::Begin => b"Begin",
        Keyword::End => b"End",
        Keyword::If => b"If",
        Keyword::Else => b"Else",
        Keyword::Send => b"Send",
        Keyword::SendAll => b"SendAll",
        Keyword::SetTag => b"SetTag",
        Keyword::SetState => b"SetState",
        Keyword::Suspend => b"Suspend",
        Keyword::Resume => b"Resume",
        Keyword::Error => b"Error",
        Keyword::Install => b"Install",
        Keyword::Enqueue => b"Enqueue",
        Keyword::WakeUp => b"WakeUp",
        Keyword::ForEach => b"ForEach",
        Keyword::Int => b"Int",
        Keyword::Bool => b"Bool",
        Keyword::Node => b"Node",
        Keyword::Set => b"Set",
        Keyword::Invalid => b"Invalid",
        Keyword::ReadOnly => b"ReadOnly",
        Keyword::ReadWrite => b"ReadWrite",
        Keyword::True => b"True",
        Keyword::False => b"False",
        Keyword::Empty => b"Empty",
        Keyword::Src => b"src",
        Keyword::SelfNode => b"self",
        Keyword::Home => b"home",
        Keyword::One => b"One",
        Keyword::Not => b"Not",
        Keyword::Count => b"Count",
        Keyword::Has => b"Has",
        Keyword::With => b"With",
        Keyword::Without => b"Without",
        Keyword::Data => b"data",
        Keyword::RdFault => b"RD_FAULT",
        Keyword::WrFault => b"WR_FAULT",
    }
}
