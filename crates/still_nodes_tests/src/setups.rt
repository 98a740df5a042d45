ghost use Rattle.std.specs.Prelude.{◌^◌, ◌<◌, IfOk, length};
ghost use Rattle.compiled_meaning.specs.Whole.{IsCode};

use dsm_runs::Setup;
use handler_code::Code;
use std::alloc::Global;
use std::test::Fail;
use suspend_split::split;
use teapot_check::check;
use teapot_parse::{parse, read_trees_are_given, texts_have_text_lines};
use teapot_tree::Checked;
use tempest_input::settings_in;
use tw_lex::lines;

/// The protocol of a text that is accepted.
fn protocol(alloc: Global, text: &[u8]) -> Result<Checked, Fail> {
    if text.len() > 1 << 20 {
        return Err(Fail::new("a protocol that is too long"));
    }
    texts_have_text_lines();
    read_trees_are_given();
    let found = lines(alloc, text)?;
    let protocol = parse(alloc, found.list, found.all)?;
    Ok(check(alloc, protocol)?)
}

/// What a text sets up, under the protocol of a text.
pub fn setup(alloc: Global, text: &str, own: &str) -> Result<Setup, Fail> {
    if text.len() > 1000 {
        return Err(Fail::new("a text that is too long"));
    }
    let settings = settings_in(alloc, text.as_bytes())?;
    let version = settings.version();
    let (shape, init, programs, _) = settings.into_parts();
    let protocol = protocol(alloc, own.as_bytes())?;
    Ok(Setup::new(version, shape, init, programs, protocol))
}

/// The code of the protocol.
pub fn code(alloc: Global, setup: &Setup) -> Result<Code, Fail>
    ensures code { IfOk result (λ code. IsCode setup.now.protocol code) }
    ensures short { IfOk result (λ code. length code.ops < 2 ^ 22) }
{
    Ok(split(alloc, setup.protocol())?)
}
