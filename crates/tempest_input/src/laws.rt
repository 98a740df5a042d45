//! What a layout is and what a text is refused for, as laws about the definitions: each function's contract is one.

ghost use Rattle.tempest_input.specs.Laws.{LayoutIsReadBothWays, MisfitIsFirst, MisfitIsOne, InputIsValidOrRefused};
ghost use Rattle.tempest_input.specs.Laws.{InputIsNeverBoth, RefusalIsOne, RefusalIsOfAKind, InputIsNoMemory};

/// A layout is found exactly where the lines are written as one, in their order and with nothing else.
pub fn layout_is_read_both_ways()
    ensures { LayoutIsReadBothWays }
{}

/// A text sets something up, or it is refused at one line for one reason. It is refused exactly for a reason of one of
/// the kinds, of which each says that the kinds before it do not apply.
pub fn input_is_valid_or_refused()
    ensures some { InputIsValidOrRefused }
    ensures apart { InputIsNeverBoth }
    ensures one { RefusalIsOne }
    ensures kinds { RefusalIsOfAKind }
    ensures no_memory { InputIsNoMemory }
{}

/// Lines that are no layout are refused at the first that does not fit: those before it can go on to a layout, and with
/// it they cannot. Where something is missing at the end, it is the line after the last.
pub fn misfit_is_first()
    ensures first { MisfitIsFirst }
    ensures one { MisfitIsOne }
{}
