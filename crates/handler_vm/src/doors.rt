ghost use Rattle.std.specs.Prelude.{◌≡◌, ◌∷◌, ◌++◌, ◌+◌, ◌*◌, ◌<◌, [], Some, IfOk, IsSome, OnOk, length, slice_get, true};
ghost use Rattle.teapot_meaning.specs.Fits.{is_known};
ghost use Rattle.handler_code.specs.Doors.{door_for, locals_of};
ghost use Rattle.handler_vm.specs.Order.{IsInOrder};
ghost use Rattle.handler_vm.specs.Tables.{IsRight, IsTableOf, column_of, kind_at};

use crate::search::{handlers_at, place_of};
use handler_code::{Code, Door};
use std::alloc::Global;
use std::marker::Model;
use teapot_tree::{Checked, Handler};
use tw_base::{Kind, Listed, Memory};

/// Where a door stands among those of the code, and its handler among those of its state.
#[derive(Clone, Copy, Debug, PartialEq, Eq)]
pub struct Place {
    pub door: u16,
    pub handler: u16,
}

/// A door of the code, and the handler that it leads to.
#[derive(Drop)]
pub(crate) struct Entry<'a> {
    pub door: &'a Door,
    pub handler: &'a Handler,
}

/// The doors of a protocol's code by state and kind of message: a column for each kind, the columns of a state one after
/// another, and one state behind the other.
#[derive(Drop)]
pub struct Doors {
    kinds: usize,
    places: Listed<Option<Place>>,
}

impl Model for Doors {
    ghost use Rattle.handler_vm.specs.Tables.{Table};

    ghost Value = { Table };

    ghost view = { λ d. record { kinds = d.kinds; places = d.places } };
}

fn column(kind: Kind) -> usize
    ensures { result ≡ column_of kind }
{
    match kind {
        Kind::RdFault => 0,
        Kind::WrFault => 1,
        Kind::Named(n) => usize::from(n) + 2,
    }
}

fn kind_at(column: u8) -> Kind
    ensures { result ≡ kind_at column }
{
    match column {
        0 => Kind::RdFault,
        1 => Kind::WrFault,
        n => Kind::Named(n - 2),
    }
}

fn push_place(places: &mut Listed<Option<Place>>, place: Option<Place>) -> Result<(), Memory>
    ensures { OnOk result (places.new ≡ places.old ++ place ∷ []) }
{
    places.push(place)
}

/// The places of all states and columns.
fn places_of(
    alloc: Global,
    code: &Code,
    p: &Checked,
    states: usize,
    kinds: usize,
) -> Result<Listed<Option<Place>>, Memory>
    requires order { IsInOrder p.now code.now }
    requires states { states ≡ length p.now.states }
    requires kinds { kinds ≡ length p.now.messages + 2 }
    ensures many { IfOk result (λ places. length places ≡ states * kinds) }
    ensures leads { IfOk result (λ places. IsRight p.now code.now kinds places) }
{
    let _protocol = p.protocol();
    let mut places = Listed::new(alloc);
    for index in 0..states * kinds {
        let state = (index / kinds) as u8;
        let kind = kind_at((index % kinds) as u8);
        push_place(&mut places, place_of(code, p, state, kind))?;
    }
    Ok(places)
}

impl Doors {
    /// Finds the door of each kind of message in each state of the protocol, for as long as its code is run.
    pub fn new(alloc: Global, code: &Code, p: &Checked) -> Result<Doors, Memory>
        requires { IsInOrder p.now code.now }
        ensures { IfOk result (λ d. IsTableOf p.now code.now d) }
    {
        let states = p.protocol().states.len();
        let kinds = p.protocol().messages.len() + 2;
        let places = places_of(alloc, code, p, states, kinds)?;
        Ok(Doors { kinds, places })
    }

    fn place(&self, state: u8, kind: Kind) -> Option<Place>
        requires { state * self.now.kinds + column_of kind < length self.now.places }
        ensures { slice_get self.now.places (state * self.now.kinds + column_of kind) ≡ Some result }
    {
        self.places.items()[usize::from(state) * self.kinds + column(kind)]
    }
}

/// The state's door for a message of this kind, else its default, and the handler at the same place in the state.
pub(crate) fn entry_for<'a>(
    code: &'a Code,
    doors: &Doors,
    p: &'a Checked,
    state: u8,
    kind: Kind,
) -> Entry<'a>
    requires doors { IsTableOf p.now code.now doors.now }
    requires order { IsInOrder p.now code.now }
    requires known { is_known p.now kind ≡ true }
    requires opens { IsSome (door_for code.now state kind) }
    ensures door { door_for code.now state kind ≡ Some result.door.now }
    ensures locals { result.handler.now.locals ≡ locals_of p.now result.door.now }
    ensures declared { state < length p.now.states }
{
    match doors.place(state, kind) {
        Some(place) => Entry {
            door: &code.doors.items()[usize::from(place.door)],
            handler: &handlers_at(p, state)[usize::from(place.handler)],
        },
        None => unreachable!(),
    }
}
