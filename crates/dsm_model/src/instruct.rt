ghost use Rattle.std.specs.Prelude.{◌≡◌, ◌<◌, ◌+◌, ◌*◌, ◌^◌, [], true, false, length, Some, None, IfOk, OnErr, slice_get};
ghost use Rattle.std.specs.Prelude.{slice_index, slice_set};
ghost use Rattle.block_tags.specs.Copies.{permits};
ghost use Rattle.mini_asm.specs.declared.cpu.Next.TheVariants as next;
ghost use Rattle.tw_base.specs.declared.entry.Event.TheVariants as event;
ghost use Rattle.dsm_runs.specs.declared.mode.Mode.TheVariants as mode;
ghost use Rattle.teapot_meaning.specs.declared.state.Here.{Here};
ghost use Rattle.dsm_runs.specs.Events.{IsRefused, tag_here};
ghost use Rattle.dsm_model.specs.Kept.{IsSound};
ghost use Rattle.dsm_runs.specs.Locals.{MayInstruct, last_stamp};
ghost use Rattle.dsm_model.specs.Makes.{IsMade, done_entry, done_node};
ghost use Rattle.dsm_runs.specs.Setups.{asked, block_of, finished, offset_of, program_at, size_of};
ghost use Rattle.dsm_model.specs.Posts.{CanSend, HaveMadeRoom};
ghost use Rattle.dsm_model.specs.Views.{AllRoom, local_of};

use crate::handle::{Made, adopt, defer, fault_of, handle};
use crate::outbox::Outbox;
use crate::{Local, Mode, Setup};
use mini_asm::{Cpu, Next, Program};
use std::alloc::Global;
use std::mem;
use teapot_meaning::Here;
use tw_base::{Act, BlockId, Data, Entry, Listed, Memory, NodeId, Tag};

fn program(setup: &Setup, me: NodeId) -> &Program
    requires { me < setup.now.shape.nodes }
    ensures { result.now ≡ program_at setup.now me }
{
    &setup.programs()[usize::from(me.get())]
}

/// What the next instruction of a node asks for.
pub fn asked(setup: &Setup, me: NodeId, cpu: &Cpu) -> Next
    requires { me < setup.now.shape.nodes }
    ensures { result ≡ asked setup.now me cpu.now }
{
    cpu.next(program(setup, me), u64::from(setup.shape().size()))
}

/// The block of an address, and its place in the block.
pub fn place(setup: &Setup, address: u32) -> (BlockId, u8)
    requires { address < size_of setup.now }
    ensures block { result.0 ≡ block_of setup.now address }
    ensures offset { result.1 ≡ offset_of setup.now address }
    ensures within { result.0 < setup.now.shape.blocks }
    ensures inside { result.1 < setup.now.shape.words }
{
    setup.shape().place_of(u64::from(address)).unwrap()
}

pub fn permits(tag: Tag, store: bool) -> bool
    ensures { result ≡ permits tag store }
{
    match tag {
        Tag::Invalid => false,
        Tag::ReadOnly => !store,
        Tag::ReadWrite => true,
    }
}

pub fn block_at(l: &Local, block: BlockId) -> &Here
    requires { block < length l.now.blocks }
    ensures { slice_get l.now.blocks block ≡ Some result.now }
{
    &l.blocks.items()[usize::from(block.get())]
}

/// The word at a place, 0 past the last.
pub fn word(words: Data, offset: u8) -> u64
    ensures { result ≡ slice_index words offset }
{
    if offset < words.len {
        words.words[usize::from(offset)]
    } else {
        0
    }
}

/// The words with another one at a place.
fn with_word(words: Data, offset: u8, value: u64) -> Data
    ensures { result ≡ slice_set words offset value }
{
    if offset < words.len {
        let mut places = words.words;
        places[usize::from(offset)] = value;
        Data {
            words: places,
            len: words.len,
        }
    } else {
        words
    }
}

/// Writes a word of a block.
fn write(alloc: Global, l: &mut Local, block: BlockId, offset: u8, value: u64)
    requires { block < length l.old.blocks }
    ensures { (here : Here) × (slice_get l.old.blocks block ≡ Some here)
        × (l.new
        ≡ record l.old {
          blocks = slice_set l.old.blocks block
              (record here { words = slice_set here.words offset value });
        }) }
{
    let mut blocks = mem::replace(&mut l.blocks, Listed::new(alloc)).into_vec();
    let here = &mut blocks[usize::from(block.get())];
    here.words = with_word(here.words, offset, value);
    l.blocks = Listed::of(blocks);
}

/// An instruction is done, and leaves the processor where it is.
fn stop(alloc: Global, setup: &Setup, me: NodeId, l: &mut Local, mode: Mode, act: Act) -> Made
    requires { MayInstruct setup.now (local_of setup.now me l.old) }
    ensures node { l.new ≡ done_node l.old mode l.old.cpu }
    ensures made { result ≡ record { entry = done_entry me l.old act; sends = [] } }
{
    let _budget = setup.shape().budget();
    l.mode = mode;
    l.clock += 1;
    l.instructions += 1;
    Made {
        entry: Entry {
            stamp: l.clock,
            node: me,
            act,
            sends: 0,
            after: None,
        },
        sends: Listed::new(alloc),
    }
}

/// An instruction completes, having loaded a word.
fn complete(alloc: Global, setup: &Setup, me: NodeId, l: &mut Local, act: Act, loaded: u64) -> Made
    requires me { me < setup.now.shape.nodes }
    requires may { MayInstruct setup.now (local_of setup.now me l.old) }
    requires place { l.old.cpu.place < length (program_at setup.now me) }
    ensures node { l.new ≡ done_node l.old mode.Running (finished setup.now me l.old.cpu loaded) }
    ensures made { result ≡ record { entry = done_entry me l.old act; sends = [] } }
{
    l.cpu.finish(program(setup, me), loaded);
    stop(alloc, setup, me, l, Mode::Running, act)
}

/// An access is refused: the node is blocked, and handles the fault.
fn fault(
    alloc: Global,
    setup: &Setup,
    me: NodeId,
    l: &mut Local,
    store: bool,
    block: BlockId,
    outboxes: &mut [Outbox],
) -> Result<Made, Memory>
    requires me { me < setup.now.shape.nodes }
    requires may { MayInstruct setup.now (local_of setup.now me l.old) }
    requires sound { IsSound setup.now l.old }
    requires block { block < setup.now.shape.blocks }
    requires refused { IsRefused setup.now (asked setup.now me l.old.cpu) store block
        ((local_of setup.now me l.old).blocks block).tag }
    requires senders { length outboxes.old ≡ setup.now.shape.nodes }
    requires room { AllRoom outboxes.old }
    ensures made { IfOk result (λ made. IsMade setup.now me (event.Instr me) l.old None l.new made) }
    ensures same { HaveMadeRoom outboxes.old outboxes.new }
    ensures ready { IfOk result (λ made. CanSend outboxes.new made.sends) }
    ensures err { OnErr result (l.new ≡ l.old) }
{
    let message = fault_of(store, block, me);
    let stamp = l.clock + 1;
    let here = block_at(l, block);
    let handling = handle(alloc, setup, me, stamp, &message, here, outboxes)?;
    defer(&mut l.deferred, &handling.ended, &message)?;
    let shape = setup.shape();
    let _limits = (shape.budget(), shape.handler_budget());
    l.mode = Mode::Blocked(block);
    l.instructions += 1;
    let act = Act::Fault { store, block };
    Ok(adopt(l, me, act, block, stamp, handling))
}

#[tactic(auto, using(crate::proofs::Posting::room_none, crate::proofs::Completing::sends_none))]
fn load(
    alloc: Global,
    setup: &Setup,
    me: NodeId,
    l: &mut Local,
    address: u32,
    outboxes: &mut [Outbox],
) -> Result<Made, Memory>
    requires me { me < setup.now.shape.nodes }
    requires may { MayInstruct setup.now (local_of setup.now me l.old) }
    requires sound { IsSound setup.now l.old }
    requires asks { asked setup.now me l.old.cpu ≡ next.Access false address 0 }
    requires senders { length outboxes.old ≡ setup.now.shape.nodes }
    requires room { AllRoom outboxes.old }
    ensures made { IfOk result (λ made. IsMade setup.now me (event.Instr me) l.old None l.new made) }
    ensures same { HaveMadeRoom outboxes.old outboxes.new }
    ensures ready { IfOk result (λ made. CanSend outboxes.new made.sends) }
    ensures err { OnErr result (l.new ≡ l.old) }
{
    let (block, offset) = place(setup, address);
    let here = block_at(l, block);
    if !permits(here.tag, false) {
        return fault(alloc, setup, me, l, false, block, outboxes);
    }
    let value = word(here.words, offset);
    let act = Act::Load { address, value };
    Ok(complete(alloc, setup, me, l, act, value))
}

#[tactic(auto, using(crate::proofs::Posting::room_none, crate::proofs::Completing::sends_none))]
fn store(
    alloc: Global,
    setup: &Setup,
    me: NodeId,
    l: &mut Local,
    address: u32,
    value: u64,
    outboxes: &mut [Outbox],
) -> Result<Made, Memory>
    requires me { me < setup.now.shape.nodes }
    requires may { MayInstruct setup.now (local_of setup.now me l.old) }
    requires sound { IsSound setup.now l.old }
    requires asks { asked setup.now me l.old.cpu ≡ next.Access true address value }
    requires senders { length outboxes.old ≡ setup.now.shape.nodes }
    requires room { AllRoom outboxes.old }
    ensures made { IfOk result (λ made. IsMade setup.now me (event.Instr me) l.old None l.new made) }
    ensures same { HaveMadeRoom outboxes.old outboxes.new }
    ensures ready { IfOk result (λ made. CanSend outboxes.new made.sends) }
    ensures err { OnErr result (l.new ≡ l.old) }
{
    let (block, offset) = place(setup, address);
    if !permits(block_at(l, block).tag, true) {
        return fault(alloc, setup, me, l, true, block, outboxes);
    }
    write(alloc, l, block, offset, value);
    let act = Act::Store { address, value };
    Ok(complete(alloc, setup, me, l, act, 0))
}

/// A word is loaded, and the sum of it and what is added is stored.
#[tactic(auto, using(crate::proofs::Posting::room_none, crate::proofs::Completing::sends_none))]
fn fetch_and_add(
    alloc: Global,
    setup: &Setup,
    me: NodeId,
    l: &mut Local,
    address: u32,
    added: u64,
    outboxes: &mut [Outbox],
) -> Result<Made, Memory>
    requires me { me < setup.now.shape.nodes }
    requires may { MayInstruct setup.now (local_of setup.now me l.old) }
    requires sound { IsSound setup.now l.old }
    requires asks { asked setup.now me l.old.cpu ≡ next.Faa address added }
    requires senders { length outboxes.old ≡ setup.now.shape.nodes }
    requires room { AllRoom outboxes.old }
    ensures made { IfOk result (λ made. IsMade setup.now me (event.Instr me) l.old None l.new made) }
    ensures same { HaveMadeRoom outboxes.old outboxes.new }
    ensures ready { IfOk result (λ made. CanSend outboxes.new made.sends) }
    ensures err { OnErr result (l.new ≡ l.old) }
{
    let (block, offset) = place(setup, address);
    let here = block_at(l, block);
    if !permits(here.tag, true) {
        return fault(alloc, setup, me, l, true, block, outboxes);
    }
    let value = word(here.words, offset);
    let sum = value.wrapping_add(added);
    write(alloc, l, block, offset, sum);
    let act = Act::Faa {
        address,
        value,
        sum,
    };
    Ok(complete(alloc, setup, me, l, act, value))
}

/// The node makes its instruction event, which is enabled. After an Err it is as before.
#[tactic(auto, using(crate::proofs::Posting::room_none, crate::proofs::Completing::sends_none))]
pub fn instruct(
    alloc: Global,
    setup: &Setup,
    me: NodeId,
    l: &mut Local,
    outboxes: &mut [Outbox],
) -> Result<Made, Memory>
    requires me { me < setup.now.shape.nodes }
    requires may { MayInstruct setup.now (local_of setup.now me l.old) }
    requires sound { IsSound setup.now l.old }
    requires senders { length outboxes.old ≡ setup.now.shape.nodes }
    requires room { AllRoom outboxes.old }
    ensures made { IfOk result (λ made. IsMade setup.now me (event.Instr me) l.old None l.new made) }
    ensures same { HaveMadeRoom outboxes.old outboxes.new }
    ensures ready { IfOk result (λ made. CanSend outboxes.new made.sends) }
    ensures err { OnErr result (l.new ≡ l.old) }
{
    match asked(setup, me, &l.cpu) {
        Next::Access {
            store: true,
            address,
            value,
        } => store(alloc, setup, me, l, address, value, outboxes),
        Next::Access { address, .. } => load(alloc, setup, me, l, address, outboxes),
        Next::Faa { address, added } => fetch_and_add(
            alloc, setup, me, l, address, added, outboxes,
        ),
        Next::Trap(why) => {
            let act = Act::Trapped { why };
            Ok(stop(alloc, setup, me, l, Mode::Trapped(why), act))
        }
        Next::Halt => Ok(stop(alloc, setup, me, l, Mode::Halted, Act::Halt)),
        Next::Print(value) => {
            let act = Act::Print { value };
            Ok(complete(alloc, setup, me, l, act, 0))
        }
        Next::Step => Ok(complete(alloc, setup, me, l, Act::Step, 0)),
    }
}
