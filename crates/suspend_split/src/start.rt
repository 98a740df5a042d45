ghost use Rattle.std.specs.Prelude.{◌≡◌, ◌+◌, IfOk, length};
ghost use Rattle.compiled_meaning.specs.Compiled.{loops_in, rests_in};

use crate::numbers::sum;
use crate::ops::Ops;
use tw_base::Memory;

/// Where code begins: its place, the number of its first rest, and the slot of its first loop.
#[derive(Clone, Copy, Debug)]
pub struct Start {
    pub at: usize,
    pub rest: usize,
    pub slot: usize,
}

impl Start {
    /// Behind these ops.
    pub fn after(self, ops: &Ops) -> Result<Self, Memory>
        ensures at { IfOk result (λ next. next.at ≡ self.at + length ops.now) }
        ensures rest { IfOk result (λ next. next.rest ≡ self.rest + rests_in ops.now) }
        ensures slot { IfOk result (λ next. next.slot ≡ self.slot + loops_in ops.now) }
    {
        Ok(Start {
            at: sum(self.at, ops.len())?,
            rest: sum(self.rest, ops.rests())?,
            slot: sum(self.slot, ops.loops())?,
        })
    }

    /// Behind this many ops that neither suspend nor loop.
    pub fn skip(self, count: usize) -> Result<Self, Memory>
        ensures { IfOk result (λ next. next ≡ record self { at = self.at + count }) }
    {
        Ok(Start {
            at: sum(self.at, count)?,
            rest: self.rest,
            slot: self.slot,
        })
    }

    /// With one loop around it.
    pub fn in_loop(self) -> Result<Self, Memory>
        ensures { IfOk result (λ next. next ≡ record self { slot = self.slot + 1 }) }
    {
        Ok(Start {
            at: self.at,
            rest: self.rest,
            slot: sum(self.slot, 1)?,
        })
    }
}
