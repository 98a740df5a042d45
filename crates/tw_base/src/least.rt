ghost use Rattle.std.specs.Prelude.{◌≡◌};
ghost use Rattle.tw_base.specs.Lists.{lesser};

/// The lesser of two numbers, where there may be none.
pub fn lesser(a: Option<u32>, b: Option<u32>) -> Option<u32>
    ensures { result ≡ lesser a b }
{
    match (a, b) {
        (Some(a), Some(b)) => Some(a.min(b)),
        (None, b) => b,
        (a, None) => a,
    }
}
