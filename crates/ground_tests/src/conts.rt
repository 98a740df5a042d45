ghost use Rattle.std.specs.Prelude.{◌≤◌};

use cont_store::{Conts, Record, RecordKey};
use std::alloc::Global;
use std::process::Abort;
use std::test::Fail;
use tw_base::{Data, Value};

/// A record whose last `count` slots have a value.
fn record_with(count: usize, parent: Option<RecordKey>, depth: u8) -> Record
    requires { count ≤ 21 }
{
    let mut values = [Value::Int(0); 21];
    for place in 21 - count..21 {
        values[place] = Value::Int(place as u32 + 1);
    }
    Record {
        rest: 7,
        values,
        came: Some(Data {
            words: [5, 6, 0, 0, 0, 0, 0, 0],
            len: 2,
        }),
        state: 3,
        args: [Value::Bool(true); 4],
        parent,
        depth,
    }
}

/// Saves a record with so many values and takes it again.
fn class_after_trip(rt: &impl Abort, alloc: Global, count: usize) -> Result<u8, Fail>
    requires { count ≤ 21 }
{
    let mut store = Conts::new(alloc);
    store.reserve()?;
    let saved = record_with(count, None, 1);
    let key = store.save(saved);
    assert_eq!(rt; store.depth_of(key), 1);
    assert_eq!(rt; store.get(key), saved);
    assert_eq!(rt; store.take(key), saved);
    Ok(key.class)
}

#[test]
fn records_come_back(rt: HostRuntime) -> Result<(), Fail> {
    assert_eq!(rt; class_after_trip(&rt, rt.alloc(), 0)?, 0);
    assert_eq!(rt; class_after_trip(&rt, rt.alloc(), 4)?, 0);
    assert_eq!(rt; class_after_trip(&rt, rt.alloc(), 5)?, 1);
    assert_eq!(rt; class_after_trip(&rt, rt.alloc(), 8)?, 1);
    assert_eq!(rt; class_after_trip(&rt, rt.alloc(), 9)?, 2);
    assert_eq!(rt; class_after_trip(&rt, rt.alloc(), 21)?, 2);
    Ok(())
}

#[test]
fn older_record_is_taken_first(rt: HostRuntime) -> Result<(), Fail> {
    let mut store = Conts::new(rt.alloc());
    store.reserve()?;
    let older = record_with(4, None, 1);
    let parent = store.save(older);
    store.reserve()?;
    let newer = record_with(2, Some(parent), 2);
    let child = store.save(newer);
    assert_eq!(rt; store.depth_of(child), 2);
    assert_eq!(rt; store.take(parent), older);
    assert_eq!(rt; store.take(child), newer);
    Ok(())
}
