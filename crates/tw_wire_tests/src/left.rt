ghost use Rattle.std.specs.Prelude.{◌≤◌};

use crate::routes::{LAST, message, pushed, route, taken, wire_count};
use std::alloc::Global;
use std::process::Abort;
use std::test::Fail;
use tw_base::{Data, Message, Value};
use tw_wire::Route;

// Adds the message of this number.
fn add_message(left: &mut Vec<Message>, route: &Route, number: u64) -> Result<(), Fail> {
    // a push of a message wants the modules of its values
    let _value: Option<Value> = None;
    let _data: Option<Data> = None;
    let Some(message) = message(route, number) else {
        return Err(Fail::new("no message"));
    };
    left.push(message)?;
    Ok(())
}

// Adds the messages of the numbers from `low` to `high`, without `high`.
fn add_messages(left: &mut Vec<Message>, route: &Route, low: u64, high: u64) -> Result<(), Fail> {
    for number in low..high {
        add_message(left, route, number)?;
    }
    Ok(())
}

// What is left on the k-th wire.
fn left_on(alloc: Global, n: u8, k: u8) -> Result<Vec<Message>, Fail>
    requires { (1 ≤ n) × (n ≤ 8) }
{
    let mut left = Vec::new(alloc);
    if taken(k) < pushed(k) {
        let Some(route) = route(n, k) else {
            return Err(Fail::new("no wire"));
        };
        add_messages(&mut left, &route, taken(k), pushed(k))?;
        add_message(&mut left, &route, LAST)?;
    }
    Ok(left)
}

// What is left on the k-th wire is this list of these.
fn is_left(rt: &impl Abort, alloc: Global, n: u8, k: u8, left: &[Vec<Message>]) -> Result<(), Fail>
    requires { (1 ≤ n) × (n ≤ 8) }
{
    let Some(one) = left.get(usize::from(k)) else {
        return Err(Fail::new("no list"));
    };
    let due = left_on(alloc, n, k)?;
    assert_eq!(rt; one.as_slice(), due.as_slice(), "wire {k} of {n} nodes");
    Ok(())
}

/// What is left on each wire, by sender, receiver and channel.
pub fn are_left(rt: &impl Abort, alloc: Global, n: u8, left: &[Vec<Message>]) -> Result<(), Fail>
    requires { (1 ≤ n) × (n ≤ 8) }
{
    assert_eq!(rt; left.len(), usize::from(wire_count(n)));
    for k in 0..wire_count(n) {
        is_left(rt, alloc, n, k, left)?;
    }
    Ok(())
}
