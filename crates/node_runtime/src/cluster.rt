ghost use Rattle.std.specs.Prelude.{◌≡◌, ◌^◌, ◌<◌, ◌≤◌, [], length, map, nat_lt, is_some, IfOk};
ghost use Rattle.compiled_meaning.specs.Whole.{IsCode};
ghost use Rattle.dsm_runs.specs.Worlds.{World};
ghost use Rattle.still_meaning.specs.Stills.{IsStill};
ghost use Rattle.tw_wire.specs.Lending.{shown};
ghost use Rattle.tw_wire.specs.Wires.{AreNames, AreNew};

use crate::closing::closed;
use crate::gate::Gate;
use crate::places::{Place, comp_in, open_into, seat_of, serve_in};
use dsm_runs::Setup;
use handler_code::Code;
use node_seats::Naming;
use std::alloc::Global;
use std::sync::Wait;
use std::thread;
use std::thread::Threads;
use still_nodes::Still;
use tw_base::Memory;
use tw_wire::{Ends, Wires};

/// The nodes of the setup that N names, each behind its lock, and the wires between them, which N names too.
#[derive(Drop)]
pub struct Cluster<'a, N: Naming> {
    setup: &'a Setup,
    code: &'a Code,
    wires: Wires,
    seat0: Place<'a, N, 0>,
    seat1: Place<'a, N, 1>,
    seat2: Place<'a, N, 2>,
    seat3: Place<'a, N, 3>,
    seat4: Place<'a, N, 4>,
    seat5: Place<'a, N, 5>,
    seat6: Place<'a, N, 6>,
    seat7: Place<'a, N, 7>,
    ghost setup_is: { setup.now ≡ N.setup },
    ghost code_is: { code.now ≡ N.code },
    ghost wires_are: { wires ≡ N.wires },
    ghost names: { AreNames N.setup.shape.nodes N.wires },
    ghost has0: { is_some seat0 ≡ nat_lt 0 N.setup.shape.nodes },
    ghost has1: { is_some seat1 ≡ nat_lt 1 N.setup.shape.nodes },
    ghost has2: { is_some seat2 ≡ nat_lt 2 N.setup.shape.nodes },
    ghost has3: { is_some seat3 ≡ nat_lt 3 N.setup.shape.nodes },
    ghost has4: { is_some seat4 ≡ nat_lt 4 N.setup.shape.nodes },
    ghost has5: { is_some seat5 ≡ nat_lt 5 N.setup.shape.nodes },
    ghost has6: { is_some seat6 ≡ nat_lt 6 N.setup.shape.nodes },
    ghost has7: { is_some seat7 ≡ nat_lt 7 N.setup.shape.nodes },
}

// A turn of one node, by the field that has it. There is none for a number past the last.
macro_rules! by_number {
    ($node:expr, $cluster:expr, |$place:ident| $turn:expr) => {
        match $node {
            0 => { let $place = &$cluster.seat0; $turn }
            1 => { let $place = &$cluster.seat1; $turn }
            2 => { let $place = &$cluster.seat2; $turn }
            3 => { let $place = &$cluster.seat3; $turn }
            4 => { let $place = &$cluster.seat4; $turn }
            5 => { let $place = &$cluster.seat5; $turn }
            6 => { let $place = &$cluster.seat6; $turn }
            7 => { let $place = &$cluster.seat7; $turn }
            _ => Ok(0),
        }
    };
}

impl<'a, N: Naming> Cluster<'a, N> {
    /// The nodes at the start of their programs, with the ends of new wires, which are by node.
    pub fn new(
        alloc: Global,
        setup: &'a Setup,
        code: &'a Code,
        wires: Wires,
        ends: Vec<Ends>,
    ) -> Result<Self, Memory>
        requires setup { setup.now ≡ N.setup }
        requires code { code.now ≡ N.code }
        requires is_code { IsCode N.setup.protocol N.code }
        requires short { length N.code.ops < 2 ^ 22 }
        requires wires { wires ≡ N.wires }
        requires ends { AreNew N.setup.shape.nodes N.wires (map shown ends.items) }
    {
        let mut ends = ends.into_iter();
        let seat0 = seat_of::<N, 0>(alloc, setup, code, &mut ends)?;
        let seat1 = seat_of::<N, 1>(alloc, setup, code, &mut ends)?;
        let seat2 = seat_of::<N, 2>(alloc, setup, code, &mut ends)?;
        let seat3 = seat_of::<N, 3>(alloc, setup, code, &mut ends)?;
        let seat4 = seat_of::<N, 4>(alloc, setup, code, &mut ends)?;
        let seat5 = seat_of::<N, 5>(alloc, setup, code, &mut ends)?;
        let seat6 = seat_of::<N, 6>(alloc, setup, code, &mut ends)?;
        let seat7 = seat_of::<N, 7>(alloc, setup, code, &mut ends)?;
        Ok(Cluster {
            setup,
            code,
            wires,
            seat0,
            seat1,
            seat2,
            seat3,
            seat4,
            seat5,
            seat6,
            seat7,
        })
    }

    /// Takes the node's lock, makes at most q instruction events, pushes what was sent, and answers how many. After an Err the
    /// events that were made stand, and what was not pushed is pushed first by the next turn.
    pub fn comp_turn<R: Wait>(&self, rt: &R, node: u8, q: u32) -> Result<u32, Memory>
        ensures { IfOk result (λ k. k ≤ q) }
    {
        by_number!(node, self, |place| comp_in(rt, place, &self.wires, q))
    }

    /// Takes the node's lock, handles at most q messages, pushes what was sent, and answers how many. After an Err as in
    /// `comp_turn`.
    pub fn handler_turn<R: Wait>(&self, rt: &R, node: u8, q: u32) -> Result<u32, Memory>
        ensures { IfOk result (λ k. k ≤ q) }
    {
        by_number!(node, self, |place| serve_in(rt, place, &self.wires, q))
    }

    // A turn of a worker: an even one makes computation turns of its node, an odd one handler turns.
    fn turn<R: Wait>(&self, rt: &R, worker: u8, q: u32) -> Result<u32, Memory> {
        if worker % 2 == 0 {
            self.comp_turn(rt, worker / 2, q)
        } else {
            self.handler_turn(rt, worker / 2, q)
        }
    }

    // The turns of a worker, until `idle` in a row made no event, or memory ran out, which false tells.
    fn work<G: Gate, R: Wait>(&self, rt: &R, gate: &G, worker: u8, q: u32, idle: u32) -> bool {
        let mut quiet = 0u32;
        for turn in 0..u64::MAX {
            if quiet >= idle {
                return true;
            }
            gate.at(u32::from(worker), turn);
            match self.turn(rt, worker, q) {
                Ok(0) => quiet += 1,
                Ok(_) => quiet = 0,
                Err(Memory) => return false,
            }
        }
        true
    }

    /// Two workers a node make turns of at most q events, until each has made `idle` in a row without an event. One that cannot
    /// be started is run here, and all are joined. The gate is called before each turn of a worker, with no lock taken.
    pub fn rounds<G: Gate + Sync, R: Threads + Wait + Sync>(
        &self,
        rt: &R,
        alloc: Global,
        gate: &G,
        q: u32,
        idle: u32,
    ) -> Result<(), Memory>
    where
        N: Send + Sync,
    {
        let workers = 2 * self.setup.shape().nodes();
        let fine = thread::scope(thread::scope_env(), rt, |scope| {
            let mut started = Vec::new(alloc);
            if started.reserve(usize::from(workers)).is_err() {
                return false;
            }
            let mut fine = true;
            for worker in 1..workers {
                match scope.spawn(move || self.work(rt, gate, worker, q, idle)) {
                    Ok(handle) => started.push_reserved(handle),
                    Err(_) => fine = self.work(rt, gate, worker, q, idle) && fine,
                }
            }
            fine = self.work(rt, gate, 0, q, idle) && fine;
            for handle in started {
                fine = handle.join(rt) && fine;
            }
            fine
        });
        if fine { Ok(()) } else { Err(Memory) }
    }

    /// Opens all locks and closes the wires: all nodes on one thread, with the messages that are left between them. They are a
    /// state of the model.
    pub fn close<R: Wait>(self, rt: &R, alloc: Global) -> Result<Still<'a>, Memory>
        ensures setup { IfOk result (λ s. s.setup ≡ N.setup) }
        ensures code { IfOk result (λ s. s.code ≡ N.code) }
        ensures taken { IfOk result (λ s. s.taken ≡ []) }
        ensures state { IfOk result (λ s. (g : World) × IsStill s g) }
    {
        let Cluster {
            setup,
            code,
            wires,
            seat0,
            seat1,
            seat2,
            seat3,
            seat4,
            seat5,
            seat6,
            seat7,
        } = self;
        let mut opened = Vec::new(alloc);
        open_into(seat0, &mut opened)?;
        open_into(seat1, &mut opened)?;
        open_into(seat2, &mut opened)?;
        open_into(seat3, &mut opened)?;
        open_into(seat4, &mut opened)?;
        open_into(seat5, &mut opened)?;
        open_into(seat6, &mut opened)?;
        open_into(seat7, &mut opened)?;
        closed::<N, R>(rt, alloc, setup, code, wires, opened)
    }
}
