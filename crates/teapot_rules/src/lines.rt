ghost use Rattle.std.specs.Prelude.{◌≡◌};
ghost use Rattle.teapot_rules.specs.Lists.{least, line_if};

/// The line, where the test holds.
pub fn line_if(holds: bool, line: u32) -> Option<u32>
    ensures { result ≡ least (line_if holds line) }
{
    if holds { Some(line) } else { None }
}
