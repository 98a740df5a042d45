ghost use Rattle.std.specs.Prelude.{◌≡◌, ◌<◌, ◌≤◌, IfSome};

use tw_base::{BlockId, Chan, Kind, Message, NodeId, Value};
use tw_wire::Route;

/// The number of the message that is pushed on each wire in the end.
pub const LAST: u64 = 9;

/// How many wires there are between n nodes.
pub fn wire_count(n: u8) -> u8
    requires { n ≤ 8 }
{
    2 * n * n
}

/// How many messages are pushed on the k-th wire at first.
pub fn pushed(k: u8) -> u64 {
    u64::from(k % 4)
}

/// How many of them are taken.
pub fn taken(k: u8) -> u64 {
    u64::from(k % 3).min(pushed(k))
}

/// The k-th wire between n nodes, by sender, receiver and channel.
pub fn route(n: u8, k: u8) -> Option<Route>
    requires { (1 ≤ n) × (n ≤ 8) }
    ensures { IfSome result (λ r. (r.from < n) × (r.to < n)) }
{
    let from = NodeId::new(k / (2 * n))?;
    let to = NodeId::new(k / 2 % n)?;
    let chan = if k % 2 == 0 { Chan::Zero } else { Chan::One };
    if from.get() < n {
        Some(Route { from, to, chan })
    } else {
        None
    }
}

/// A message on a wire.
pub fn message(route: &Route, number: u64) -> Option<Message>
    ensures { IfSome result (λ m. (m.from ≡ route.now.from) × (m.to ≡ route.now.to)) }
{
    Some(Message {
        kind: Kind::Named(3),
        block: BlockId::new(5)?,
        from: route.from,
        to: route.to,
        chan: route.chan,
        number,
        stamp: 7,
        args: [Value::Int(0); 4],
        arg_count: 0,
        payload: None,
    })
}
