ghost use Rattle.std.specs.Prelude.{ℕ, ◌≡◌, ◌<◌, true, false};
ghost use Rattle.mini_asm.specs.declared.cpu.Next.TheVariants as next;
ghost use Rattle.blizzard_guard.specs.Running.{IsAccessOf, IsAnswered, MayGo};
ghost use Rattle.dsm_runs.specs.Setups.{asked, block_of, size_of};
ghost use Rattle.node_core.specs.Steps.{CanStep, Does, HasStepped, IsAtWork, has_logged};

use crate::state::State;
use crate::take::fault;
use blizzard_guard::Look;
use dsm_runs::{Mode, Setup};
use handler_code::Code;
use mini_asm::Next;
use tw_base::{Act, BlockId, Entry, NodeId, Trap};

/// An instruction is done, and leaves the node in this mode.
fn conclude(me: NodeId, state: &mut State, mode: Mode, act: Act)
    requires { CanStep state.old }
    ensures { state.new ≡ has_logged me state.old mode act }
{
    let stamp = state.clock + 1;
    state.mode = mode;
    state.clock = stamp;
    state.instructions += 1;
    state.ready = false;
    let entry = Entry {
        stamp,
        node: me,
        act,
        sends: 0,
        after: None,
    };
    state.log.push(entry);
}

/// A load that the tag of its block allows.
fn load(me: NodeId, state: &mut State, address: u32)
    requires counted { CanStep state.old }
    requires answered { IsAnswered state.old.blocks false address true }
    ensures { (value : ℕ) → Does me state.old state.new (next.Access false address value) }
{
    let value = state.blocks.load(address);
    state.processor.finish(value);
    let act = Act::Load { address, value };
    conclude(me, state, Mode::Running, act);
}

/// A store that the tag of its block allows.
fn put(me: NodeId, state: &mut State, address: u32, value: u64)
    requires counted { CanStep state.old }
    requires answered { IsAnswered state.old.blocks true address true }
    ensures { Does me state.old state.new (next.Access true address value) }
{
    state.blocks.store(address, value);
    let _shape = state.blocks.shape();
    state.processor.finish(0);
    let act = Act::Store { address, value };
    conclude(me, state, Mode::Running, act);
}

/// A fetch and add that the tag of its block allows.
fn fetch_and_add(me: NodeId, state: &mut State, address: u32, added: u64)
    requires counted { CanStep state.old }
    requires answered { IsAnswered state.old.blocks true address true }
    ensures { Does me state.old state.new (next.Faa address added) }
{
    let value = state.blocks.peek(address);
    let sum = value.wrapping_add(added);
    state.blocks.store(address, sum);
    let _shape = state.blocks.shape();
    state.processor.finish(value);
    let act = Act::Faa {
        address,
        value,
        sum,
    };
    conclude(me, state, Mode::Running, act);
}

/// An instruction that prints.
fn print(me: NodeId, state: &mut State, value: u64)
    requires counted { CanStep state.old }
    ensures { Does me state.old state.new (next.Print value) }
{
    state.processor.finish(0);
    let act = Act::Print { value };
    conclude(me, state, Mode::Running, act);
}

/// An instruction of registers and place alone.
fn step(me: NodeId, state: &mut State)
    requires counted { CanStep state.old }
    ensures { Does me state.old state.new next.Step }
{
    state.processor.finish(0);
    conclude(me, state, Mode::Running, Act::Step);
}

fn halt(me: NodeId, state: &mut State)
    requires counted { CanStep state.old }
    ensures { Does me state.old state.new next.Halt }
{
    conclude(me, state, Mode::Halted, Act::Halt);
}

fn trap(me: NodeId, state: &mut State, why: Trap)
    requires counted { CanStep state.old }
    ensures { Does me state.old state.new (next.Trap why) }
{
    let act = Act::Trapped { why };
    conclude(me, state, Mode::Trapped(why), act);
}

/// An access that the tag of its block allows.
fn access(me: NodeId, state: &mut State, store: bool, address: u32, value: u64)
    requires counted { CanStep state.old }
    requires answered { IsAnswered state.old.blocks store address true }
    ensures { Does me state.old state.new (next.Access store address value) }
{
    if store {
        put(me, state, address, value);
    } else {
        load(me, state, address);
    }
}

/// Does what the next instruction asks for, which no tag refuses.
fn perform(me: NodeId, state: &mut State, next: Next)
    requires counted { CanStep state.old }
    requires may_go { MayGo state.old.blocks next }
    ensures { Does me state.old state.new next }
{
    match next {
        Next::Access {
            store,
            address,
            value,
        } => access(me, state, store, address, value),
        Next::Faa { address, added } => fetch_and_add(me, state, address, added),
        Next::Trap(why) => trap(me, state, why),
        Next::Halt => halt(me, state),
        Next::Print(value) => print(me, state, value),
        Next::Step => step(me, state),
    }
}

/// The block of an address.
fn block_of(setup: &Setup, address: u32) -> BlockId
    requires { address < size_of setup.now }
    ensures block { result ≡ block_of setup.now address }
    ensures within { result < setup.now.shape.blocks }
{
    let (block, _) = setup.shape().place_of(u64::from(address)).unwrap();
    block
}

/// The access of a word whose block's tag refuses it.
fn refuse(setup: &Setup, code: &Code, me: NodeId, state: &mut State, store: bool, address: u32)
    requires work { IsAtWork setup.now code.now me state.old }
    requires ready { state.old.ready ≡ true }
    requires access { IsAccessOf (asked setup.now me state.old.processor.cpu) store address }
    requires refused { IsAnswered state.old.blocks store address false }
    ensures { HasStepped setup.now code.now me state.old state.new }
{
    let block = block_of(setup, address);
    fault(setup, code, me, state, store, block);
}

/// Makes the node's instruction event.
pub fn instruct(setup: &Setup, code: &Code, me: NodeId, state: &mut State)
    requires work { IsAtWork setup.now code.now me state.old }
    requires ready { state.old.ready ≡ true }
    ensures { HasStepped setup.now code.now me state.old state.new }
{
    match state.processor.look(&state.blocks) {
        Look::Refused { store, address } => refuse(setup, code, me, state, store, address),
        Look::Goes(next) => perform(me, state, next),
    }
}
