//! The records of a block's suspensions beside the continuations of the interpreter.

ghost use Rattle.std.specs.Prelude.{Some};
ghost use Rattle.compiled_handlers_tests.specs.Named.{IsNamed};

use crate::parts::hold;
use cont_store::{Conts, Record, RecordKey};
use handler_code::{Code, Rest};
use teapot_meaning::{Bound, Cont, StateVal};
use tw_base::Value;

/// How many suspensions a state holds, at most so many.
pub fn depth(state: &StateVal, most: u8) -> u8 {
    if most == 0 {
        return 0;
    }
    match &state.cont {
        Some(cont) => 1u8.saturating_add(depth(cont.get().saved.get(), most - 1)),
        None => 0,
    }
}

// Whether a slot is one that a rest reads.
fn is_live(rest: &Rest, k: usize) -> bool {
    k < 32 && rest.live >> k & 1 == 1
}

// Whether each slot that the rest reads has its variable's value, if it is one's, and each other slot 0.
fn same_slots(rest: &Rest, values: &[Value], vars: &[Bound]) -> bool {
    for (k, value) in values.iter().enumerate() {
        let due = match vars.get(k) {
            _ if !is_live(rest, k) => Value::Int(0),
            Some(var) => var.value,
            None => *value,
        };
        if *value != due {
            return false;
        }
    }
    true
}

// Whether a record stands for a continuation, but for the statements that follow.
fn same_record(code: &Code, record: &Record, cont: &Cont) -> bool {
    let saved = cont.saved.get();
    let same_values = match code.rests.get(record.rest as usize) {
        Some(rest) => same_slots(rest, &record.values, cont.vars.items()),
        None => false,
    };
    same_values
        && record.state == saved.state
        && hold(&record.args, saved.args.items())
        && record.came == cont.came
        && record.depth == depth(saved, 9).saturating_add(1)
}

/// Whether the records from a key on are those of the interpreter's continuations, the newest first, at most so many.
#[cycle(compared)]
pub fn same_chain(
    code: &Code,
    conts: &Conts,
    key: Option<RecordKey>,
    state: &StateVal,
    most: u8,
) -> bool
    requires { IsNamed conts.now key }
{
    match key {
        None => state.cont.is_none(),
        Some(key) => most > 0 && same_newest(code, conts, key, state, most - 1),
    }
}

#[cycle(compared)]
fn same_newest(code: &Code, conts: &Conts, key: RecordKey, state: &StateVal, most: u8) -> bool
    requires { IsNamed conts.now (Some key) }
{
    let Some(cont) = &state.cont else {
        return false;
    };
    let saved = conts.get(key);
    let older = cont.get().saved.get();
    same_record(code, &saved, cont.get()) && same_chain(code, conts, saved.parent, older, most)
}
