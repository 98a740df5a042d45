ghost use Rattle.std.specs.Prelude.{◌≡◌, ◌<◌, ◌≤◌, length, IfOk};
ghost use Rattle.tw_wire_tests.specs.Tied.{AreTied};

use crate::left::are_left;
use crate::passing::{Look, pop, push};
use crate::routes::{LAST, message, pushed, route, taken, wire_count};
use std::alloc::Global;
use std::process::Abort;
use std::sync::Wait;
use std::test::Fail;
use tw_wire::{Ends, Route, Wires};

// Pushes the message of this number on the k-th wire, if so many are pushed on it.
fn push_one<R: Wait>(
    rt: &R,
    wires: &Wires,
    ends: &mut Vec<Ends>,
    n: u8,
    k: u8,
    number: u64,
) -> Result<(), Fail>
    requires count { (1 ≤ n) × (n ≤ 8) }
    requires all { length wires.now ≡ n }
    requires tied { AreTied wires.now ends.old.items }
    ensures { AreTied wires.now ends.new.items }
{
    if number >= pushed(k) {
        return Ok(());
    }
    let Some(route) = route(n, k) else {
        return Err(Fail::new("no wire"));
    };
    let Some(message) = message(&route, number) else {
        return Err(Fail::new("no message"));
    };
    push(rt, wires, ends, &message)
}

/// Pushes the message of this number on each wire on which so many are pushed.
fn push_round<R: Wait>(
    rt: &R,
    wires: &Wires,
    ends: &mut Vec<Ends>,
    n: u8,
    number: u64,
) -> Result<(), Fail>
    requires count { (1 ≤ n) × (n ≤ 8) }
    requires all { length wires.now ≡ n }
    requires tied { AreTied wires.now ends.old.items }
    ensures { AreTied wires.now ends.new.items }
{
    for k in 0..wire_count(n) {
        push_one(rt, wires, ends, n, k, number)?;
    }
    Ok(())
}

/// Takes the first message of a wire, which is that of this number.
fn take_one<R: Wait + Abort>(
    rt: &R,
    wires: &Wires,
    ends: &mut Vec<Ends>,
    route: &Route,
    number: u64,
)
    requires from { route.now.from < length wires.now }
    requires to { route.now.to < length wires.now }
    requires tied { AreTied wires.now ends.old.items }
    ensures { AreTied wires.now ends.new.items }
{
    let due = Look {
        message: message(route, number),
        in_vain: 0,
    };
    assert_eq!(rt; pop(rt, wires, ends, route), due);
}

/// Takes the first messages of a wire.
pub fn take_row<R: Wait + Abort>(
    rt: &R,
    wires: &Wires,
    ends: &mut Vec<Ends>,
    route: &Route,
    count: u64,
)
    requires from { route.now.from < length wires.now }
    requires to { route.now.to < length wires.now }
    requires tied { AreTied wires.now ends.old.items }
    ensures { AreTied wires.now ends.new.items }
{
    for number in 0..count {
        take_one(rt, wires, ends, route, number);
    }
}

/// Looks at a wire on which nothing is, for the so many-th time.
pub fn look_in_vain<R: Wait + Abort>(
    rt: &R,
    wires: &Wires,
    ends: &mut Vec<Ends>,
    route: &Route,
    in_vain: u64,
)
    requires from { route.now.from < length wires.now }
    requires to { route.now.to < length wires.now }
    requires tied { AreTied wires.now ends.old.items }
    ensures { AreTied wires.now ends.new.items }
{
    let due = Look {
        message: None,
        in_vain,
    };
    assert_eq!(rt; pop(rt, wires, ends, route), due);
}

// Takes from the k-th wire, and looks in vain at it if all was taken.
fn take_wire<R: Wait + Abort>(
    rt: &R,
    wires: &Wires,
    ends: &mut Vec<Ends>,
    n: u8,
    k: u8,
) -> Result<(), Fail>
    requires count { (1 ≤ n) × (n ≤ 8) }
    requires all { length wires.now ≡ n }
    requires tied { AreTied wires.now ends.old.items }
    ensures { AreTied wires.now ends.new.items }
{
    let Some(route) = route(n, k) else {
        return Err(Fail::new("no wire"));
    };
    take_row(rt, wires, ends, &route, taken(k));
    if taken(k) == pushed(k) {
        look_in_vain(rt, wires, ends, &route, 1);
        look_in_vain(rt, wires, ends, &route, 2);
    }
    Ok(())
}

/// Takes from each wire, and looks in vain at those from which all was taken.
fn take_some<R: Wait + Abort>(
    rt: &R,
    wires: &Wires,
    ends: &mut Vec<Ends>,
    n: u8,
) -> Result<(), Fail>
    requires count { (1 ≤ n) × (n ≤ 8) }
    requires all { length wires.now ≡ n }
    requires tied { AreTied wires.now ends.old.items }
    ensures { AreTied wires.now ends.new.items }
{
    for k in 0..wire_count(n) {
        take_wire(rt, wires, ends, n, k)?;
    }
    Ok(())
}

// Pushes the last message on the k-th wire, and takes it if the wire was empty.
fn push_last_on<R: Wait + Abort>(
    rt: &R,
    wires: &Wires,
    ends: &mut Vec<Ends>,
    n: u8,
    k: u8,
) -> Result<(), Fail>
    requires count { (1 ≤ n) × (n ≤ 8) }
    requires all { length wires.now ≡ n }
    requires tied { AreTied wires.now ends.old.items }
    ensures { AreTied wires.now ends.new.items }
{
    let Some(route) = route(n, k) else {
        return Err(Fail::new("no wire"));
    };
    let Some(last) = message(&route, LAST) else {
        return Err(Fail::new("no message"));
    };
    push(rt, wires, ends, &last)?;
    if taken(k) == pushed(k) {
        let due = Look {
            message: Some(last),
            in_vain: 2,
        };
        assert_eq!(rt; pop(rt, wires, ends, &route), due);
    }
    Ok(())
}

/// Pushes a message on each wire, and takes it where the wire was empty.
fn push_last<R: Wait + Abort>(
    rt: &R,
    wires: &Wires,
    ends: &mut Vec<Ends>,
    n: u8,
) -> Result<(), Fail>
    requires count { (1 ≤ n) × (n ≤ 8) }
    requires all { length wires.now ≡ n }
    requires tied { AreTied wires.now ends.old.items }
    ensures { AreTied wires.now ends.new.items }
{
    for k in 0..wire_count(n) {
        push_last_on(rt, wires, ends, n, k)?;
    }
    Ok(())
}

/// New wires of n nodes, and their ends.
pub fn new_wires(alloc: Global, n: u8) -> Result<(Wires, Vec<Ends>), Fail>
    requires { (1 ≤ n) × (n ≤ 8) }
    ensures count { IfOk result (λ r. length r.0 ≡ n) }
    ensures tied { IfOk result (λ r. AreTied r.0 r.1.items) }
{
    match Wires::new(alloc, n) {
        Ok(made) => Ok(made),
        Err(_) => Err(Fail::new("no memory")),
    }
}

/// Pushes on all wires, takes from them, and pushes once more.
fn pass_all<R: Wait + Abort>(rt: &R, wires: &Wires, ends: &mut Vec<Ends>, n: u8) -> Result<(), Fail>
    requires count { (1 ≤ n) × (n ≤ 8) }
    requires all { length wires.now ≡ n }
    requires tied { AreTied wires.now ends.old.items }
    ensures { AreTied wires.now ends.new.items }
{
    push_round(rt, wires, ends, n, 0)?;
    push_round(rt, wires, ends, n, 1)?;
    push_round(rt, wires, ends, n, 2)?;
    take_some(rt, wires, ends, n)?;
    push_last(rt, wires, ends, n)
}

/// Messages go over all wires of n nodes.
fn go<R: Wait + Abort>(rt: &R, alloc: Global, n: u8) -> Result<(), Fail>
    requires { (1 ≤ n) × (n ≤ 8) }
{
    let (wires, mut ends) = new_wires(alloc, n)?;
    pass_all(rt, &wires, &mut ends, n)?;
    let left = wires.close(rt, alloc, ends)?;
    are_left(rt, alloc, n, &left)
}

#[test]
fn wires_keep_what_is_sent(rt: HostRuntime) -> Result<(), Fail> {
    go(&rt, rt.alloc(), 1)?;
    go(&rt, rt.alloc(), 3)?;
    go(&rt, rt.alloc(), 8)
}
