ghost use Rattle.std.specs.Prelude.{◌≡◌, ◌+◌, ◌<◌, ◌≤◌, List, None, Some, length, reverse, slice_get, take};
ghost use Rattle.cont_store.specs.declared.record.RecordKey.{RecordKey};
ghost use Rattle.tw_base.specs.declared.message.Message.{Message};
ghost use Rattle.handler_code.specs.Machine.{Next, place_of_rest, resumed, state_arity, stopped, suspended};
ghost use Rattle.handler_vm.specs.Chains.{IsChain, KeepsOthersFrom, Spares, records_of, saved_from};
ghost use Rattle.handler_vm.specs.Inside.{HasFew, IsSound, IsStop, SameBlock, machine_of};

use crate::running::Running;
use crate::values::Args;
use crate::work::state_arity;
use cont_store::{Conts, Record, RecordKey};
use handler_code::Code;
use teapot_tree::Protocol;
use tw_base::End;

/// Where a rest begins, 0 where there is none.
fn place_of_rest(code: &Code, rest: u32) -> usize
    ensures { result ≡ place_of_rest (slice_get code.now.rests rest) }
{
    match code.rests.get(rest as usize) {
        Some(rest) => rest.at as usize,
        None => 0,
    }
}

/// How many arguments the state of a record has, 0 where it is not declared.
fn saved_arity(p: &Protocol, state: u8) -> usize
    ensures { result ≡ state_arity (slice_get p.now.states state) }
{
    match p.states.get(usize::from(state)) {
        Some(s) => s.params.len(),
        None => 0,
    }
}

impl Running {
    /// Goes on with the newest record of the chain.
    pub(crate) fn resume(&mut self, code: &Code, p: &Protocol, conts: &mut Conts, key: RecordKey)
        requires few { HasFew p.now }
        requires newest { self.old.cont ≡ Some key }
        requires sound { IsSound p.now self.old conts.old }
        ensures next { (sent : List Message) →
            resumed code.now (machine_of p.now self.old sent (saved_from p.now conts.old self.old.cont)) (saved_from p.now conts.old self.old.cont)
            ≡ Next (machine_of p.now self.new sent (saved_from p.now conts.new self.new.cont)) }
        ensures sound { IsSound p.now self.new conts.new }
        ensures others { Spares conts.old conts.new self.old.cont self.new.cont }
        ensures block { SameBlock p.now self.old self.new }
        ensures words { length self.new.words ≡ length self.old.words }
    {
        let record = conts.take(key);
        self.at = place_of_rest(code, record.rest);
        self.slots.set_all(&record.values);
        self.came = record.came;
        self.stack.clear();
        self.state = record.state;
        self.args = Args::first(&record.args, saved_arity(p, record.state));
        self.cont = record.parent;
        self.free();
    }

    /// How many records the chain has.
    pub(crate) fn depth(&self, conts: &Conts) -> u8
        requires { IsChain (length self.now.words) conts.now self.now.cont }
        ensures { result ≡ length (records_of conts.now self.now.cont) }
    {
        match self.cont {
            Some(key) => conts.depth_of(key),
            None => 0,
        }
    }

    /// Saves the slots that are live at the rest, and leaves the state.
    pub(crate) fn suspend(
        &mut self,
        code: &Code,
        p: &Protocol,
        conts: &mut Conts,
        state: u8,
        rest: u32,
    )
        requires few { HasFew p.now }
        requires sound { IsSound p.now self.old conts.old }
        requires declared { state < length p.now.states }
        requires saved { rest < length code.now.rests }
        requires enough { state_arity (slice_get p.now.states state) ≤ length self.old.stack }
        requires low { length (records_of conts.old self.old.cont) < 8 }
        ensures stop { (sent : List Message) → let m = machine_of p.now self.old sent
            (saved_from p.now conts.old self.old.cont) in
            let args = reverse (take (state_arity (slice_get p.now.states state)) self.old.stack) in
            IsStop p.now self.new sent conts.new End.Fine (stopped (suspended code.now m state args rest) End.Fine) }
        ensures words { length self.new.words ≡ length self.old.words }
        ensures others { KeepsOthersFrom (length self.old.words) conts.old conts.new self.old.cont self.new.cont }
        ensures block { SameBlock p.now self.old self.new }
    {
        let depth = self.depth(conts) + 1;
        let args = self.take(state_arity(p, state));
        let saved = &code.rests.items()[rest as usize];
        let record = Record {
            rest,
            values: self.slots.saved(saved),
            came: self.came,
            state: self.state,
            args: self.args.places(),
            parent: self.cont,
            depth,
        };
        self.cont = Some(conts.save(record));
        self.state = state;
        self.args = args;
        self.records += 1;
    }
}
