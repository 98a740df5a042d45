ghost use Rattle.std.specs.Prelude.{ℕ, ◌≡◌, ◌+◌, ◌-◌, ◌<◌, ◌^◌, IfOk, if◌then◌else◌, length, replicate, slice_index};
ghost use Rattle.code_rules.specs.Serving.{AreCounted, suspends_to};

use handler_code::OpCode;
use std::alloc::Global;
use tw_base::{Listed, Memory};

/// How many ops name the rest of each number, in one pass over the ops.
pub fn suspensions(alloc: Global, ops: &[OpCode], rests: usize) -> Result<Listed<u32>, Memory>
    requires { length ops.now < 2 ^ 32 }
    ensures all { IfOk result (λ counts. length counts ≡ rests) }
    ensures counted { IfOk result (AreCounted ops.now) }
{
    let mut counts = none(alloc, rests)?;
    for op in ops {
        count(&mut counts, op);
    }
    Ok(counts)
}

fn none(alloc: Global, rests: usize) -> Result<Listed<u32>, Memory>
    ensures { IfOk result (λ counts. counts ≡ replicate rests 0) }
{
    Ok(Listed::of(vec![in alloc; 0; rests]?))
}

/// One more for the rest that the op names, if it names one of these.
fn count(counts: &mut Listed<u32>, op: &OpCode)
    requires { (number : ℕ) → slice_index counts.old number + 1 < 2 ^ 32 }
    ensures all { length counts.new ≡ length counts.old }
    ensures more { (number : ℕ) → number < length counts.old →
        slice_index counts.new number ≡ slice_index counts.old number + (if suspends_to number op.now then 1 else 0) }
{
    if let OpCode::Suspend(_, rest) = op {
        let number = *rest as usize;
        if number < counts.len() {
            let before = counts.items()[number];
            counts.set(number, before + 1);
        }
    }
}
