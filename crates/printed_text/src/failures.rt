ghost use Rattle.std.specs.Prelude.{◌≡◌, ◌++◌, OnOk};
ghost use Rattle.tw_base.specs.declared.entry.End.TheVariants as how;
ghost use Rattle.printed_text.specs.Lines.{spaced};
ghost use Rattle.printed_text.specs.Names.{failure_words};

use crate::{Names, Text};
use tw_base::{End, Memory};

fn add_error(out: &mut Text, names: &Names, number: u32) -> Result<(), Memory>
    ensures { OnOk result (out.new ≡ out.old ++ spaced (failure_words names.now.protocol.now (how.Failed number))) }
{
    out.add(b" failed ")?;
    out.add(names.error(number))
}

/// How a handler failed, nothing where it did not.
pub fn add_failure(out: &mut Text, names: &Names, end: End) -> Result<(), Memory>
    ensures { OnOk result (out.new ≡ out.old ++ spaced (failure_words names.now.protocol.now end)) }
{
    match end {
        End::Fine => Ok(()),
        End::Failed(number) => add_error(out, names, number),
        End::TooDeep => out.add(b" failed TooDeep"),
    }
}
