ghost use Rattle.std.specs.Prelude.{◌≡◌, ◌+◌, ◌<◌, ◌≤◌, drop, length, position, slice_get, take};
ghost use Rattle.std.specs.List.{flat_map};
ghost use Rattle.handler_code.specs.Doors.{handlers_at, is_for, is_for_all_else};
ghost use Rattle.handler_vm.specs.Finding.{place_for};
ghost use Rattle.handler_vm.specs.Order.{IsInOrder};
ghost use Rattle.handler_vm.specs.Tables.{IsPlaceOf};

use crate::doors::Place;
use handler_code::{Code, Door, Kind2};
use teapot_tree::{Checked, Handler, State};
use tw_base::Kind;

fn is_for(kind: Kind, on: Kind2) -> bool
    ensures { result ≡ is_for kind on }
{
    match (kind, on) {
        (Kind::RdFault, Kind2::RdFault) => true,
        (Kind::WrFault, Kind2::WrFault) => true,
        (Kind::Named(n), Kind2::Named(m)) => m == n,
        _ => false,
    }
}

fn is_for_all_else(on: Kind2) -> bool
    ensures { result ≡ is_for_all_else on }
{
    matches!(on, Kind2::Default)
}

fn own_place(kind: Kind, doors: &[Door]) -> Option<usize>
    ensures { result ≡ position (λ d. is_for kind d.on) doors.now }
{
    doors.iter().position(|d| is_for(kind, d.on))
}

fn default_place(doors: &[Door]) -> Option<usize>
    ensures { result ≡ position (λ d. is_for_all_else d.on) doors.now }
{
    doors.iter().position(|d| is_for_all_else(d.on))
}

/// The place of the door for a message of this kind among a state's doors, else that of the default.
fn place_for(kind: Kind, doors: &[Door]) -> Option<usize>
    ensures { result ≡ place_for kind doors.now }
{
    match own_place(kind, doors) {
        Some(place) => Some(place),
        None => default_place(doors),
    }
}

/// How many handlers these states have.
fn handlers_in(states: &[State]) -> usize
    requires { length (flat_map (λ s. s.handlers) states.now) ≤ 1024 }
    ensures { result ≡ length (flat_map (λ s. s.handlers) states.now) }
{
    let mut count = 0;
    for state in states {
        count += state.handlers.len();
    }
    count
}

/// So many doors from a place on.
fn doors_from(doors: &[Door], first: usize, count: usize) -> &[Door]
    requires { first + count ≤ length doors.now }
    ensures { result.now ≡ take count (drop first doors.now) }
{
    &doors[first..first + count]
}

/// Where the doors of a state begin.
fn first_door(p: &Checked, state: u8) -> usize
    requires { state < length p.now.states }
    ensures { result ≡ length (flat_map (λ s. s.handlers) (take state p.now.states)) }
{
    let states = p.protocol().states.items();
    handlers_in(&states[..usize::from(state)])
}

/// The handlers of a state.
pub(crate) fn handlers_at(p: &Checked, state: u8) -> &[Handler]
    requires { state < length p.now.states }
    ensures { result.now ≡ handlers_at (slice_get p.now.states state) }
{
    p.protocol().states.items()[usize::from(state)]
        .handlers
        .items()
}

/// The place of the state's door for a message of this kind, else of its default, and of the handler that it leads to.
pub(crate) fn place_of(code: &Code, p: &Checked, state: u8, kind: Kind) -> Option<Place>
    requires order { IsInOrder p.now code.now }
    requires declared { state < length p.now.states }
    ensures { IsPlaceOf p.now code.now state kind result }
{
    let first = first_door(p, state);
    let doors = doors_from(code.doors.items(), first, handlers_at(p, state).len());
    let _protocol = p.protocol();
    match place_for(kind, doors) {
        Some(place) => Some(Place {
            door: (first + place) as u16,
            handler: place as u16,
        }),
        None => None,
    }
}
