ghost use Rattle.std.specs.Prelude.{◌≡◌, ◌<◌, ◌^◌, ◌↔◌, IfOk, None, Some, false, if◌then◌else◌, length, slice_get};
ghost use Rattle.code_walks.specs.Least.{IsLeast};
ghost use Rattle.code_walks.specs.Parts.{AtRest};
ghost use Rattle.code_rules.specs.Serving.{AreCounted, LosesBy, LosesSlot, is_placed};
ghost use Rattle.live_slots.specs.Tables.{IsExact};

use crate::serving::is_placed;
use crate::suspensions::suspensions;
use handler_code::{Code, Rest};
use live_slots::{live_table, slots_at};
use std::alloc::Global;
use tw_base::{Memory, lesser};

fn rest_at(code: &Code, number: usize) -> Rest
    requires { number < length code.now.rests }
    ensures { slice_get code.now.rests number ≡ Some result }
{
    let rests = code.rests.items();
    rests[number]
}

/// The place, unless the test holds.
fn place_unless(holds: bool, at: u32) -> Option<u32>
    ensures { result ≡ (if holds then None else Some at) }
{
    if holds { None } else { Some(at) }
}

/// The least place of a rest that does not follow its one Suspend.
pub fn first_unplaced(alloc: Global, code: &Code) -> Result<Option<u32>, Memory>
    requires { length code.now.ops < 2 ^ 32 }
    ensures { IfOk result (IsLeast (AtRest code.now (λ number rest. is_placed code.now number rest ≡ false))) }
{
    let counts = suspensions(alloc, code.ops.items(), code.rests.len())?;
    Ok(first_of_unplaced(code, counts.items()))
}

/// The same, by how many ops name each rest.
fn first_of_unplaced(code: &Code, counts: &[u32]) -> Option<u32>
    requires few { length code.now.ops < 2 ^ 32 }
    requires all { length counts.now ≡ length code.now.rests }
    requires counted { AreCounted code.now.ops counts.now }
    ensures { IsLeast (AtRest code.now (λ number rest. is_placed code.now number rest ≡ false)) result }
{
    let mut least = None;
    for number in 0..code.rests.len() {
        let rest = rest_at(code, number);
        let placed = is_placed(code, counts[number], number, rest);
        least = lesser(least, place_unless(placed, rest.at));
    }
    least
}

/// Whether each slot of the table at the rest's place is live.
fn keeps(table: &[u32], rest: Rest) -> bool
    ensures { (result ≡ false) ↔ LosesBy table.now rest }
{
    let lost = slots_at(table, rest.at as usize) & !rest.live;
    lost == 0
}

/// The least place of a rest that loses a slot.
pub fn first_losing(alloc: Global, code: &Code) -> Result<Option<u32>, Memory>
    ensures { IfOk result (IsLeast (AtRest code.now (λ number rest. LosesSlot code.now rest))) }
{
    let table = live_table(alloc, code.ops.items())?;
    Ok(first_of_losing(code, table.items()))
}

/// The same, by a table of the slots that are read first.
fn first_of_losing(code: &Code, table: &[u32]) -> Option<u32>
    requires { IsExact code.now.ops table.now }
    ensures { IsLeast (AtRest code.now (λ number rest. LosesSlot code.now rest)) result }
{
    let mut least = None;
    for number in 0..code.rests.len() {
        let rest = rest_at(code, number);
        let kept = keeps(table, rest);
        least = lesser(least, place_unless(kept, rest.at));
    }
    least
}
