ghost use Rattle.std.specs.Prelude.{◌≡◌};
ghost use Rattle.printed_text.specs.Names.{chan_text, fault_text, tag_text, trap_text};

use tw_base::{Chan, Tag, Trap};

pub fn chan_text(chan: Chan) -> &'static str
    ensures { result.now ≡ chan_text chan }
{
    match chan {
        Chan::Zero => "0",
        Chan::One => "1",
    }
}

pub fn tag_text(tag: Tag) -> &'static str
    ensures { result.now ≡ tag_text tag }
{
    match tag {
        Tag::Invalid => "Invalid",
        Tag::ReadOnly => "ReadOnly",
        Tag::ReadWrite => "ReadWrite",
    }
}

/// A refused store, or a refused load.
pub fn fault_text(store: bool) -> &'static str
    ensures { result.now ≡ fault_text store }
{
    if store { "WR_FAULT" } else { "RD_FAULT" }
}

pub fn trap_text(why: Trap) -> &'static str
    ensures { result.now ≡ trap_text why }
{
    match why {
        Trap::BadAddress => "BadAddress",
        Trap::FellOff => "FellOff",
    }
}
