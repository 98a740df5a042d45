ghost use Rattle.std.specs.Prelude.{◌≡◌, ◌+◌, ◌^◌, ◌<◌, ◌≤◌, length, map, nat_lt, is_some, OnOk, IfOk};
ghost use Rattle.std.specs.Vec.Iter.{into_iter_items};
ghost use Rattle.compiled_meaning.specs.Whole.{IsCode};
ghost use Rattle.tw_wire.specs.Lending.{shown};
ghost use Rattle.node_runtime.specs.Places.{AreEndsFrom, AreOpenedBelow};

use dsm_runs::Setup;
use handler_code::Code;
use node_seats::{Naming, Opened, Seat};
use std::alloc::Global;
use std::sync::{Mutex, Wait};
use std::vec::IntoIter;
use tw_base::Memory;
use tw_wire::{Ends, Wires};

/// The seat of node ME behind its lock, where there is such a node.
pub type Place<'a, N, const ME: u8> = Option<Mutex<Seat<'a, N, ME>>>;

/// Node ME at its start, if there is such a node. The ends are those of it and of the nodes behind it, by number.
pub fn seat_of<'a, N: Naming, const ME: u8>(
    alloc: Global,
    setup: &'a Setup,
    code: &'a Code,
    ends: &mut IntoIter<Ends>,
) -> Result<Place<'a, N, ME>, Memory>
    requires setup { setup.now ≡ N.setup }
    requires code { code.now ≡ N.code }
    requires is_code { IsCode N.setup.protocol N.code }
    requires short { length N.code.ops < 2 ^ 22 }
    requires ends { AreEndsFrom N.setup.shape.nodes N.wires ME (map shown (into_iter_items ends.old)) }
    ensures some { IfOk result (λ place. is_some place ≡ nat_lt ME N.setup.shape.nodes) }
    ensures ends { OnOk result (AreEndsFrom N.setup.shape.nodes N.wires (ME + 1) (map shown (into_iter_items ends.new))) }
{
    if ME >= setup.shape().nodes() {
        return Ok(None);
    }
    let own = ends.next().unwrap();
    let seat = Seat::new(alloc, setup, code, own)?;
    Ok(Some(Mutex::new(seat)))
}

/// Opens the lock of node ME, if there is such a node.
pub fn open_into<'a, N: Naming, const ME: u8>(
    place: Place<'a, N, ME>,
    opened: &mut Vec<Opened<'a>>,
) -> Result<(), Memory>
    requires some { is_some place ≡ nat_lt ME N.setup.shape.nodes }
    requires opened { AreOpenedBelow N.setup N.code N.wires ME opened.old.items }
    ensures { OnOk result (AreOpenedBelow N.setup N.code N.wires (ME + 1) opened.new.items) }
{
    if let Some(lock) = place {
        opened.push(lock.into_inner().open())?;
    }
    Ok(())
}

/// A computation turn of node ME, under its lock.
pub fn comp_in<'a, N: Naming, const ME: u8, R: Wait>(
    rt: &R,
    place: &Place<'a, N, ME>,
    wires: &Wires,
    q: u32,
) -> Result<u32, Memory>
    requires { wires.now ≡ N.wires }
    ensures { IfOk result (λ k. k ≤ q) }
{
    match place {
        Some(lock) => lock.lock(rt).comp(rt, wires, q),
        None => Ok(0),
    }
}

/// A handler turn of node ME, under its lock.
pub fn serve_in<'a, N: Naming, const ME: u8, R: Wait>(
    rt: &R,
    place: &Place<'a, N, ME>,
    wires: &Wires,
    q: u32,
) -> Result<u32, Memory>
    requires { wires.now ≡ N.wires }
    ensures { IfOk result (λ k. k ≤ q) }
{
    match place {
        Some(lock) => lock.lock(rt).serve(rt, wires, q),
        None => Ok(0),
    }
}
