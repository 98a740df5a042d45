ghost use Rattle.std.specs.Prelude.{◌≡◌, ◌+◌, ◌^◌, ◌<◌, length, IfNone, IfSome, OnSome};
ghost use Rattle.handler_code.specs.Live.{HasOp};
ghost use Rattle.handler_code.specs.Machine.{Next, Runs, Stop, Stopped, move_of};
ghost use Rattle.handler_vm.specs.Chains.{KeepsOthers, KeepsOthersFrom, Spares};
ghost use Rattle.handler_vm.specs.Inside.{HasFew, IsAtOp, IsSound, IsStop, SameBlock, StaysUnsent, WillStop, machine_with};

use crate::running::Running;
use crate::unsent::Unsent;
use cont_store::Conts;
use handler_code::{Code, OpCode};
use teapot_tree::Protocol;
use tw_base::End;

fn op_at(code: &Code, at: usize) -> OpCode
    requires { at < length code.now.ops }
    ensures value { HasOp code.now.ops at result }
    ensures small { at + 1 < 2 ^ 64 }
{
    code.ops.items()[at]
}

impl Running {
    /// The op at the run's place. Tells how the run ends, where it does.
    fn advance(
        &mut self,
        code: &Code,
        p: &Protocol,
        conts: &mut Conts,
        unsent: &mut Unsent,
    ) -> Option<End>
        requires few { HasFew p.now }
        requires sound { IsSound p.now self.old conts.old }
        requires placed { IsAtOp p.now code.now self.old }
        requires stops { WillStop p.now code.now unsent.old.room (machine_with p.now self.old unsent.old conts.old) }
        ensures on { IfNone result (move_of p.now code.now (machine_with p.now self.old unsent.old conts.old)
            ≡ Next (machine_with p.now self.new unsent.new conts.new)) }
        ensures sound { IfNone result (IsSound p.now self.new conts.new) }
        ensures spares { IfNone result (Spares conts.old conts.new self.old.cont self.new.cont) }
        ensures over { IfSome result (λ end. (e : Stopped) × (move_of p.now code.now (machine_with p.now self.old unsent.old conts.old)
            ≡ Stop e)
            × IsStop p.now self.new unsent.new.sent conts.new end e) }
        ensures others { OnSome result (KeepsOthersFrom (length self.old.words) conts.old conts.new self.old.cont self.new.cont) }
        ensures unsent { StaysUnsent p.now self.old unsent.old unsent.new }
        ensures room { unsent.new.room ≡ unsent.old.room }
        ensures block { SameBlock p.now self.old self.new }
        ensures words { length self.new.words ≡ length self.old.words }
    {
        let op = op_at(code, self.at);
        self.step(code, p, conts, unsent, op)
    }

    /// Runs ops until one ends the run.
    pub(crate) fn go(
        &mut self,
        code: &Code,
        p: &Protocol,
        conts: &mut Conts,
        unsent: &mut Unsent,
    ) -> End
        requires few { HasFew p.now }
        requires sound { IsSound p.now self.old conts.old }
        requires placed { IsAtOp p.now code.now self.old }
        requires stops { WillStop p.now code.now unsent.old.room (machine_with p.now self.old unsent.old conts.old) }
        ensures stop { (e : Stopped) × Runs p.now code.now (machine_with p.now self.old unsent.old conts.old) e
            × IsStop p.now self.new unsent.new.sent conts.new result e }
        ensures others { KeepsOthers conts.old conts.new self.old.cont self.new.cont }
        ensures unsent { StaysUnsent p.now self.old unsent.old unsent.new }
        ensures block { SameBlock p.now self.old self.new }
        ensures words { length self.new.words ≡ length self.old.words }
        ensures room { unsent.new.room ≡ unsent.old.room }
    {
        'ops: loop {
            match self.advance(code, p, conts, unsent) {
                Some(end) => return end,
                None => continue,
            }
        }
    }
}
