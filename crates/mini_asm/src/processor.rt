ghost use Rattle.std.specs.Prelude.{◌≡◌, ◌≤◌, ◌^◌, length};
ghost use Rattle.mini_asm.specs.Run.{run_one};

use crate::{Cpu, Next, Program};
use tw_base::{Act, Trap};

/// Whether a processor of the flat machine goes on, or how it ended.
#[derive(Clone, Copy, Debug, PartialEq, Eq)]
pub enum FlatMode {
    Running,
    Halted,
    Trapped(Trap),
}

/// A processor of the flat machine.
#[derive(Clone, Copy, Debug, PartialEq, Eq)]
pub struct Core {
    pub cpu: Cpu,
    pub mode: FlatMode,
}

/// Executes one instruction over a memory.
#[tactic(auto, unfolding(crate::specs::Run::run_one))]
pub fn run_one(program: &Program, core: &mut Core, words: &mut [u64]) -> Act
    requires { length words.old ≤ 2 ^ 32 }
    ensures { run_one program.now core.old words.old ≡ record { act = result; core = core.new; words = words.new } }
{
    match core.cpu.next(program, words.len() as u64) {
        Next::Access {
            store: true,
            address,
            value,
        } => {
            words[address as usize] = value;
            core.cpu.finish(program, 0);
            Act::Store { address, value }
        }
        Next::Access { address, .. } => {
            let value = words[address as usize];
            core.cpu.finish(program, value);
            Act::Load { address, value }
        }
        Next::Faa { address, added } => {
            let value = words[address as usize];
            let sum = value.wrapping_add(added);
            words[address as usize] = sum;
            core.cpu.finish(program, value);
            Act::Faa {
                address,
                value,
                sum,
            }
        }
        Next::Trap(why) => {
            core.mode = FlatMode::Trapped(why);
            Act::Trapped { why }
        }
        Next::Halt => {
            core.mode = FlatMode::Halted;
            Act::Halt
        }
        Next::Print(value) => {
            core.cpu.finish(program, 0);
            Act::Print { value }
        }
        Next::Step => {
            core.cpu.finish(program, 0);
            Act::Step
        }
    }
}
