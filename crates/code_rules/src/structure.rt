ghost use Rattle.std.specs.Prelude.{◌≡◌, ◌+◌, ◌<◌, ◌^◌, ◌==◌, length, min, slice_get};
ghost use Rattle.std.specs.List.{list_all};
ghost use Rattle.teapot_tree.specs.Bodies.{body_of};
ghost use Rattle.teapot_tree.specs.Parts.{loops};
ghost use Rattle.teapot_meaning.specs.Fits.{names_in};
ghost use Rattle.teapot_rules.specs.Stmts.{stmt_body};
ghost use Rattle.code_walks.specs.Parts.{handler_of};
ghost use Rattle.code_rules.specs.Structure.{begins, has_slots, has_slots_of, is_door_of, is_live_below, is_rest_of};
ghost use Rattle.code_rules.specs.Structure.{is_structured, rises_from, slot_count};

use code_walks::handler_of;
use handler_code::{Code, Door, Rest};
use teapot_tree::{Checked, Do, Handler, State, Stmt};

fn capped(count: u32) -> u32
    ensures { result ≡ min 256 count }
{
    if count < 256 { count } else { 256 }
}

/// How many loops stand in the statements, and 256 where there are more.
#[cycle(loops)]
fn loops(stmts: &[Stmt]) -> u32
    ensures { result ≡ min 256 (loops (body_of stmts.now)) }
{
    let mut sum = 0;
    for s in stmts {
        sum = capped(sum + loops_in(s));
    }
    sum
}

#[cycle(loops)]
fn loops_in(stmt: &Stmt) -> u32
    ensures { result ≡ min 256 (loops (stmt_body stmt.now)) }
{
    match &stmt.what {
        Do::If(_, first, second) => match second {
            None => loops(first.items()),
            Some(second) => capped(loops(first.items()) + loops(second.items())),
        },
        Do::ForEach(_, _, body) => capped(1 + loops(body.items())),
        Do::Each(_, _, body) => loops(body.items()),
        _ => 0,
    }
}

fn variables(state: &State, handler: &Handler) -> usize
    ensures { result ≡ length (names_in state.now handler.now) }
{
    let params = state.params.items().len();
    let args = handler.args.items().len();
    let locals = handler.locals.items().len();
    1 + params + args + locals
}

fn has_count(slots: u8, state: &State, handler: &Handler) -> bool
    ensures { result ≡ (slots == slot_count state.now handler.now) }
{
    let variables = variables(state, handler);
    variables <= 255 && slots as usize == variables + loops(handler.body.items()) as usize
}

/// Whether the door is for a handler of the protocol, and has its slots.
fn has_slots(p: &Checked, door: Door) -> bool
    ensures { result ≡ has_slots door.slots (slice_get p.now.states door.state) (handler_of p.now door) }
{
    let state = p.protocol().states.get(door.state as usize);
    match (state, handler_of(p, door)) {
        (Some(s), Some(h)) => has_count(door.slots, s, h),
        _ => false,
    }
}

fn is_door_of(p: &Checked, n: usize, door: Door) -> bool
    ensures { result ≡ is_door_of p.now n door }
{
    has_slots(p, door) && (door.at as usize) < n
}

fn begins(doors: &[Door], n: usize) -> bool
    ensures { result ≡ begins doors.now n }
{
    match doors {
        [] => n == 0,
        [first, ..] => first.at == 0,
    }
}

/// Whether each door's place is above the one before.
fn rises(doors: &[Door]) -> bool
    ensures { result ≡ rises_from 0 doors.now }
{
    let mut least: u64 = 0;
    for door in doors {
        if (door.at as u64) < least {
            return false;
        }
        least = door.at as u64 + 1;
    }
    true
}

fn is_live_below(slots: u8, live: u32) -> bool
    ensures { result ≡ is_live_below slots live }
{
    slots >= 32 || live >> slots == 0
}

fn is_rest_of(doors: &[Door], n: usize, rest: Rest) -> bool
    ensures { result ≡ is_rest_of doors.now n rest }
{
    (rest.at as usize) < n
        && match doors.get(rest.door as usize) {
            None => false,
            Some(door) => is_live_below(door.slots, rest.live),
        }
}

fn are_doors_of(p: &Checked, n: usize, doors: &[Door]) -> bool
    ensures { result ≡ list_all (is_door_of p.now n) doors.now }
{
    doors.iter().all(|d| is_door_of(p, n, *d))
}

fn are_rests_of(doors: &[Door], n: usize, rests: &[Rest]) -> bool
    ensures { result ≡ list_all (is_rest_of doors.now n) rests.now }
{
    rests.iter().all(|r| is_rest_of(doors, n, *r))
}

/// Whether doors and rests fit the ops and the protocol.
pub fn is_structured(p: &Checked, code: &Code) -> bool
    ensures { result ≡ is_structured p.now code.now }
{
    let n = code.ops.len();
    let doors = code.doors.items();
    begins(doors, n)
        && rises(doors)
        && are_doors_of(p, n, doors)
        && are_rests_of(doors, n, code.rests.items())
}
