ghost use Rattle.std.specs.Prelude.{◌≡◌, ◌+◌, ◌*◌, ◌^◌, ◌<◌, ◌≤◌, ◌∷◌};
ghost use Rattle.node_parts.specs.Truths.{truths};

/// The tests of a node as bits: that of its instruction, that of its redelivery, and then, two for each node, the lowest of
/// `early`. No other bit is set.
pub fn tests_word(instruction: bool, redelivery: bool, early: u32, nodes: u8) -> u32
    requires { nodes ≤ 8 }
    ensures tests { truths (2 + 2 * nodes) result ≡ instruction ∷ redelivery ∷ truths (2 * nodes) early }
    ensures small { result < 2 ^ (2 + 2 * nodes) }
{
    let deliveries = early & ((1 << (2 * nodes)) - 1);
    u32::from(instruction) + 2 * u32::from(redelivery) + 4 * deliveries
}
