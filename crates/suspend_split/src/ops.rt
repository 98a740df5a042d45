ghost use Rattle.std.specs.Prelude.{◌≡◌, [], ◌∷◌, ◌++◌, IfOk, OnOk, length};
ghost use Rattle.compiled_meaning.specs.Compiled.{loops_by, loops_in, rests_by, rests_in};

use crate::numbers::sum;
use handler_code::OpCode;
use std::alloc::Global;
use std::marker::Model;
use tw_base::{Listed, Memory, Value};

/// A run of ops, seen as their list. It knows how many suspensions and loops it has.
#[derive(Debug, Drop)]
pub struct Ops {
    ops: Listed<OpCode>,
    rests: usize,
    loops: usize,
}

impl Model for Ops {
    ghost use Rattle.std.specs.Prelude.{List, ◌≡◌};
    ghost use Rattle.handler_code.specs.declared.code.OpCode.{OpCode};
    ghost use Rattle.compiled_meaning.specs.Compiled.{loops_in, rests_in};

    ghost Value = { List OpCode };

    ghost view = { λ o. o.ops };

    ghost invariant = { λ o. (o.rests ≡ rests_in o.ops) × (o.loops ≡ loops_in o.ops) };
}

#[tactic(auto, using(crate::proofs::Counts::rests_in_append, crate::proofs::Counts::loops_in_append, crate::proofs::Counts::rests_in_push, crate::proofs::Counts::loops_in_push))]
impl Ops {
    pub fn new(alloc: Global) -> Self
        ensures { result ≡ [] }
    {
        Ops {
            ops: Listed::new(alloc),
            rests: 0,
            loops: 0,
        }
    }

    /// One op.
    pub fn of(alloc: Global, op: OpCode) -> Result<Self, Memory>
        ensures { IfOk result (λ ops. ops ≡ op ∷ []) }
    {
        Ops::new(alloc).with(op)
    }

    pub fn len(&self) -> usize
        ensures { result ≡ length self.now }
    {
        self.ops.len()
    }

    /// How many suspensions it has.
    pub fn rests(&self) -> usize
        ensures { result ≡ rests_in self.now }
    {
        self.rests
    }

    /// How many loops it has.
    pub fn loops(&self) -> usize
        ensures { result ≡ loops_in self.now }
    {
        self.loops
    }

    pub fn items(&self) -> &[OpCode]
        ensures { result.now ≡ self.now }
    {
        self.ops.items()
    }

    pub fn into_listed(self) -> Listed<OpCode>
        ensures { result ≡ self }
    {
        let Ops {
            ops,
            rests: _,
            loops: _,
        } = self;
        ops
    }

    /// Adds an op.
    pub fn push(&mut self, op: OpCode) -> Result<(), Memory>
        ensures { OnOk result (self.new ≡ self.old ++ op ∷ []) }
    {
        let _none: Option<Value> = None;
        let rests = with_rest(self.rests, &op)?;
        let loops = with_loop(self.loops, &op)?;
        self.ops.push(op)?;
        self.rests = rests;
        self.loops = loops;
        Ok(())
    }

    /// These ops and one more.
    pub fn with(self, op: OpCode) -> Result<Self, Memory>
        ensures { IfOk result (λ ops. ops ≡ self ++ op ∷ []) }
    {
        let _none: Option<Value> = None;
        let Ops { ops, rests, loops } = self;
        let rests = with_rest(rests, &op)?;
        let loops = with_loop(loops, &op)?;
        let ops = pushed(ops, op)?;
        Ok(Ops { ops, rests, loops })
    }

    /// These ops and more behind them.
    pub fn then(self, more: Ops) -> Result<Self, Memory>
        ensures { IfOk result (λ ops. ops ≡ self ++ more) }
    {
        let Ops {
            mut ops,
            rests,
            loops,
        } = self;
        let rests = sum(rests, more.rests())?;
        let loops = sum(loops, more.loops())?;
        ops.append(more.into_listed())?;
        Ok(Ops { ops, rests, loops })
    }

    /// These ops, then this op, then more.
    pub fn join(self, op: OpCode, more: Ops) -> Result<Self, Memory>
        ensures { IfOk result (λ ops. ops ≡ self ++ op ∷ more) }
    {
        self.with(op)?.then(more)
    }
}

fn with_rest(rests: usize, op: &OpCode) -> Result<usize, Memory>
    ensures { IfOk result (λ n. n ≡ rests_by op.now rests) }
{
    match op {
        OpCode::Suspend(_, _) => sum(rests, 1),
        _ => Ok(rests),
    }
}

fn with_loop(loops: usize, op: &OpCode) -> Result<usize, Memory>
    ensures { IfOk result (λ n. n ≡ loops_by op.now loops) }
{
    match op {
        OpCode::EachNext(_, _, _) => sum(loops, 1),
        _ => Ok(loops),
    }
}

fn pushed<T: Drop>(items: Listed<T>, item: T) -> Result<Listed<T>, Memory>
    ensures { IfOk result (λ all. all ≡ items ++ item ∷ []) }
{
    let mut all = items;
    all.push(item)?;
    Ok(all)
}
