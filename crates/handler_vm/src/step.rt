ghost use Rattle.std.specs.Prelude.{◌≡◌, ◌+◌, ◌^◌, ◌<◌, ◌≤◌, List, length, IfNone, IfSome, OnSome, slice_get};
ghost use Rattle.tw_base.specs.declared.message.Message.{Message};
ghost use Rattle.handler_code.specs.Machine.{Next, Stop, Stopped, act, state_arity};
ghost use Rattle.handler_code.specs.Stacks.{put_by, taken_by};
ghost use Rattle.handler_vm.specs.Chains.{KeepsOthersFrom, Spares, saved_from};
ghost use Rattle.handler_vm.specs.Inside.{HasFew, IsSound, IsStop, OnNext, SameBlock, StaysUnsent, machine_of, machine_with};
ghost use Rattle.handler_vm.specs.Room.{IsThere};

use crate::running::Running;
use crate::unsent::Unsent;
use cont_store::Conts;
use handler_code::{Code, OpCode};
use teapot_tree::Protocol;
use tw_base::End;

impl Running {
    /// Saves the run, unless the chain has eight records.
    fn leave(&mut self, code: &Code, p: &Protocol, conts: &mut Conts, state: u8, rest: u32) -> End
        requires few { HasFew p.now }
        requires place { self.old.at + 1 < 2 ^ 64 }
        requires ops { self.old.ops + 1 < 2 ^ 64 }
        requires sound { IsSound p.now self.old conts.old }
        requires declared { state < length p.now.states }
        requires saved { rest < length code.now.rests }
        requires enough { state_arity (slice_get p.now.states state) ≤ length self.old.stack }
        ensures stop { (sent : List Message) → let m = machine_of p.now self.old sent
            (saved_from p.now conts.old self.old.cont) in
            (e : Stopped) × (act p.now code.now (OpCode.Suspend state rest) m ≡ Stop e)
            × IsStop p.now self.new sent conts.new result e }
        ensures others { KeepsOthersFrom (length self.old.words) conts.old conts.new self.old.cont self.new.cont }
        ensures block { SameBlock p.now self.old self.new }
        ensures words { length self.new.words ≡ length self.old.words }
    {
        self.count();
        if self.depth(conts) >= 8 {
            return End::TooDeep;
        }
        self.suspend(code, p, conts, state, rest);
        End::Fine
    }

    /// One op. Tells how the run ends, where it does.
    pub(crate) fn step(
        &mut self,
        code: &Code,
        p: &Protocol,
        conts: &mut Conts,
        unsent: &mut Unsent,
        op: OpCode,
    ) -> Option<End>
        requires few { HasFew p.now }
        requires place { self.old.at + 1 < 2 ^ 64 }
        requires ops { self.old.ops + 1 < 2 ^ 64 }
        requires sound { IsSound p.now self.old conts.old }
        requires most { length self.old.stack ≤ 24 }
        requires enough { taken_by p.now op ≤ length self.old.stack }
        requires there { IsThere p.now code.now (length self.old.slots) op }
        requires fits { length self.old.stack + put_by op ≤ 24 + taken_by p.now op }
        requires room { OnNext (λ n. length n.around.sends ≤ unsent.old.room)
            (act p.now code.now op (machine_with p.now self.old unsent.old conts.old)) }
        ensures on { IfNone result (act p.now code.now op (machine_with p.now self.old unsent.old conts.old)
            ≡ Next (machine_with p.now self.new unsent.new conts.new)) }
        ensures sound { IfNone result (IsSound p.now self.new conts.new) }
        ensures spares { IfNone result (Spares conts.old conts.new self.old.cont self.new.cont) }
        ensures over { IfSome result (λ end. (e : Stopped) × (act p.now code.now op (machine_with p.now self.old unsent.old conts.old)
            ≡ Stop e)
            × IsStop p.now self.new unsent.new.sent conts.new end e) }
        ensures others { OnSome result (KeepsOthersFrom (length self.old.words) conts.old conts.new self.old.cont self.new.cont) }
        ensures unsent { StaysUnsent p.now self.old unsent.old unsent.new }
        ensures room { unsent.new.room ≡ unsent.old.room }
        ensures block { SameBlock p.now self.old self.new }
        ensures words { length self.new.words ≡ length self.old.words }
    {
        match op {
            OpCode::Send(number) => {
                self.count();
                self.send(p, number, unsent);
                None
            }
            OpCode::SendAll(number) => {
                self.count();
                self.send_all(p, number, unsent);
                None
            }
            OpCode::Suspend(state, rest) => Some(self.leave(code, p, conts, state, rest)),
            OpCode::Resume => {
                self.count();
                match self.cont {
                    Some(key) => {
                        self.resume(code, p, conts, key);
                        None
                    }
                    None => Some(End::Fine),
                }
            }
            OpCode::Fail(number) => {
                self.count();
                Some(End::Failed(number))
            }
            OpCode::Done => {
                self.count();
                Some(End::Fine)
            }
            _ => {
                self.work(p, op);
                None
            }
        }
    }
}
