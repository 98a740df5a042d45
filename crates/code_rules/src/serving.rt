ghost use Rattle.std.specs.Prelude.{◌≡◌, ◌<◌, ◌^◌, count_by, length, slice_get};
ghost use Rattle.std.specs.List.{list_any};
ghost use Rattle.tw_base.specs.Bits.{all_below};
ghost use Rattle.handler_code.specs.Doors.{is_for_all_else, same_kind};
ghost use Rattle.code_rules.specs.Serving.{are_apart, has_default, is_behind, is_placed, same_door, serves_all, suspends_to};

use code_walks::{end_of, op_at, same_kind};
use handler_code::{Code, Door, Kind2, OpCode, Rest};
use teapot_tree::Protocol;

fn suspends_to(op: &OpCode, number: usize) -> bool
    ensures { result ≡ suspends_to number op.now }
{
    matches!(op, OpCode::Suspend(_, r) if *r as usize == number)
}

/// Whether the place is in the handler behind the door of this number.
fn is_behind(code: &Code, number: u16, at: u32) -> bool
    requires { length code.now.ops < 2 ^ 32 }
    ensures { result ≡ is_behind code.now number (slice_get code.now.doors number) at }
{
    match code.doors.get(number as usize) {
        None => false,
        Some(door) => door.at <= at && at < end_of(code, number as usize),
    }
}

/// Whether one Suspend names the rest, and stands right before it, behind the rest's door. So many ops name it.
pub fn is_placed(code: &Code, count: u32, number: usize, rest: Rest) -> bool
    requires few { length code.now.ops < 2 ^ 32 }
    requires counted { count ≡ count_by (suspends_to number) code.now.ops }
    ensures { result ≡ is_placed code.now number rest }
{
    count == 1
        && 0 < rest.at
        && suspends_to(&op_at(code, rest.at - 1), number)
        && is_behind(code, rest.door, rest.at - 1)
}

fn is_for_all_else(on: Kind2) -> bool
    ensures { result ≡ is_for_all_else on }
{
    matches!(on, Kind2::Default)
}

fn same_door(a: Door, b: Door) -> bool
    ensures { result ≡ same_door a b }
{
    a.state == b.state && same_kind(a.on, b.on)
}

fn is_among(door: Door, doors: &[Door]) -> bool
    ensures { result ≡ list_any (same_door door) doors.now }
{
    doors.iter().any(|d| same_door(door, *d))
}

/// Whether no two doors are for one state and kind.
fn are_apart(doors: &[Door]) -> bool
    ensures { result ≡ are_apart doors.now }
{
    for (number, door) in doors.iter().enumerate() {
        if is_among(*door, &doors[number + 1..]) {
            return false;
        }
    }
    true
}

fn has_default(doors: &[Door], state: usize) -> bool
    ensures { result ≡ has_default doors.now state }
{
    doors
        .iter()
        .any(|d| d.state as usize == state && is_for_all_else(d.on))
}

fn have_defaults(doors: &[Door], states: usize) -> bool
    ensures { result ≡ all_below states (has_default doors.now) }
{
    for state in 0..states {
        if !has_default(doors, state) {
            return false;
        }
    }
    true
}

/// Whether each state has one door at most for each kind, and one for all else.
pub fn serves_all(p: &Protocol, code: &Code) -> bool
    ensures { result ≡ serves_all p.now code.now }
{
    let doors = code.doors.items();
    are_apart(doors) && have_defaults(doors, p.states.len())
}
