ghost use Rattle.std.specs.Prelude.{◌^◌, ◌<◌, IfOk, length};
ghost use Rattle.compiled_meaning.specs.Whole.{IsCode};

use dsm_runs::Setup;
use handler_code::Code;
pub use machine_texts::{ALONE, ALONE_REPORT, BOTH, SEVEN_READERS};
use stache_protocol::stache;
use std::alloc::Global;
use std::test::Fail;
use suspend_split::split;
use tempest_input::settings_in;

/// One node stores the word that the other loads.
pub const STORE_AND_LOAD: &str = "tempest 1
nodes 2
words 1
blocks 1
program 0
li r1 1
st r1 r0 0
halt
end
program 1
ld r2 r0 0
print r2
halt
end
";

/// What a text sets up, under Stache.
pub fn setup(alloc: Global, text: &str) -> Result<Setup, Fail> {
    if text.len() > 1000 {
        return Err(Fail::new("a text that is too long"));
    }
    let settings = settings_in(alloc, text.as_bytes())?;
    let version = settings.version();
    let (shape, init, programs, _) = settings.into_parts();
    Ok(Setup::new(version, shape, init, programs, stache(alloc)?))
}

/// The code of the protocol.
pub fn code(alloc: Global, setup: &Setup) -> Result<Code, Fail>
    ensures code { IfOk result (λ code. IsCode setup.now.protocol code) }
    ensures short { IfOk result (λ code. length code.ops < 2 ^ 22) }
{
    Ok(split(alloc, setup.protocol())?)
}
