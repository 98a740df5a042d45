ghost use Rattle.std.specs.Prelude.{◌≡◌};
ghost use Rattle.report_reader.specs.Slots.{shown, fits_number, fits_what, fits_word};

use tw_base::Shape;
use tw_lex::What;

/// What stands at one place of a line.
#[derive(Clone, Copy)]
pub enum Slot {
    /// This word.
    Word(&'static [u8]),
    /// Any word: the name of a message, of a state or of an error.
    Name,
    /// Why a processor stopped.
    Trap,
    Tag,
    Number,
    /// This number.
    Is(u64),
    Node,
    /// The node whose number is that of the lines of the kind that stand before.
    Next,
    Register,
    Address,
    Block,
    Channel,
}

fn fits_word(slot: Slot, word: &[u8]) -> bool
    ensures { result ≡ fits_word (shown slot) word.now }
{
    match slot {
        Slot::Word(wanted) => word == wanted,
        Slot::Name => true,
        Slot::Trap => word == b"BadAddress".as_slice() || word == b"FellOff".as_slice(),
        Slot::Tag => {
            word == b"Invalid".as_slice()
                || word == b"ReadOnly".as_slice()
                || word == b"ReadWrite".as_slice()
        }
        _ => false,
    }
}

fn fits_number(shape: Shape, before: u64, slot: Slot, number: u64) -> bool
    ensures { result ≡ fits_number shape before (shown slot) number }
{
    match slot {
        Slot::Number => true,
        Slot::Is(wanted) => number == wanted,
        Slot::Node => number < u64::from(shape.nodes()),
        Slot::Next => number == before && number < u64::from(shape.nodes()),
        Slot::Register => number < 16,
        Slot::Address => number < u64::from(shape.size()),
        Slot::Block => number < u64::from(shape.blocks()),
        Slot::Channel => number < 2,
        _ => false,
    }
}

/// Whether a token may stand there, in a report of a machine of this shape. So many lines of the kind stand before.
pub fn fits_what(shape: Shape, before: u64, slot: Slot, what: &What) -> bool
    ensures { result ≡ fits_what shape before (shown slot) what.now }
{
    match what {
        What::Word(word) => fits_word(slot, word.bytes()),
        What::Number(number) => fits_number(shape, before, slot, *number),
        What::Mark(_) => false,
    }
}
