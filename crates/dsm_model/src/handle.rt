ghost use Rattle.std.specs.Prelude.{◌≡◌, ◌<◌, ◌+◌, ◌^◌, true, map, length, IfOk, OnOk, OnErr};
ghost use Rattle.dsm_runs.specs.Args.{padded_args, used_args};
ghost use Rattle.dsm_runs.specs.Events.{failure, freed_if, mode_after, with_kept};
ghost use Rattle.dsm_model.specs.Kept.{is_served};
ghost use Rattle.dsm_model.specs.Makes.{IsHandling, handled_entry, handled_node};
ghost use Rattle.dsm_runs.specs.Messages.{chan_of, fault, message_of, outgoing};
ghost use Rattle.dsm_model.specs.Posts.{CanSend, HaveMadeRoom};
ghost use Rattle.dsm_model.specs.Views.{AllRoom};

use crate::outbox::Outbox;
use crate::wires::reserve_all;
use crate::{Deferred, Local, Mode, Setup, Waiting};
use std::alloc::Global;
use teapot_interpreter::run;
use teapot_meaning::{Ended, Here, Kept, Out};
use teapot_tree::Checked;
use tw_base::{
    Act, After, BlockId, Chan, End, Entry, Kind, Listed, Memory, Message, NodeId, Value,
};

/// What a node does with a message: the block as its handler leaves it, and the messages sent, which have no numbers yet.
#[derive(Debug, Drop)]
pub struct Handling {
    pub ended: Ended,
    pub sends: Listed<Message>,
}

/// An event of a node: its entry, and the messages sent, which have no numbers yet.
#[derive(Debug, Drop)]
pub struct Made {
    pub entry: Entry,
    pub sends: Listed<Message>,
}

/// The channel that the declaration of a message names.
fn chan_of(protocol: &Checked, kind: Kind) -> Chan
    ensures { result ≡ chan_of protocol.now kind }
{
    match kind {
        Kind::RdFault | Kind::WrFault => Chan::Zero,
        Kind::Named(number) => match protocol.protocol().messages.get(usize::from(number)) {
            Some(message) => message.chan,
            None => Chan::Zero,
        },
    }
}

fn used_count(args: &[Value]) -> u8
    ensures count { result ≡ length (used_args args.now) }
{
    args.len().min(4) as u8
}

/// The first four values, and after them 0.
fn padded(args: &[Value]) -> [Value; 4]
    ensures { result ≡ padded_args args.now }
{
    let count = args.len().min(4);
    let mut places = [Value::Int(0); 4];
    places[..count].copy_from_slice(&args[..count]);
    places
}

/// A message that a handler sends.
fn message_of(protocol: &Checked, from: NodeId, block: BlockId, stamp: u64, out: &Out) -> Message
    ensures { result ≡ message_of protocol.now from block stamp out.now }
{
    Message {
        kind: out.kind,
        block,
        from,
        to: out.to,
        chan: chan_of(protocol, out.kind),
        number: 0,
        stamp,
        args: padded(out.args.items()),
        arg_count: used_count(out.args.items()),
        payload: out.payload,
    }
}

fn outgoing(
    alloc: Global,
    protocol: &Checked,
    from: NodeId,
    block: BlockId,
    stamp: u64,
    outs: &[Out],
) -> Result<Listed<Message>, Memory>
    ensures { IfOk result (λ sends. sends ≡ map (message_of protocol.now from block stamp) outs.now) }
{
    let mut sends = Listed::new(alloc);
    for out in outs {
        sends.push(message_of(protocol, from, block, stamp, out))?;
    }
    Ok(sends)
}

/// The message of a refused access.
pub fn fault_of(store: bool, block: BlockId, me: NodeId) -> Message
    ensures { result ≡ fault store block me }
{
    Message {
        kind: if store { Kind::WrFault } else { Kind::RdFault },
        block,
        from: me,
        to: me,
        chan: Chan::Zero,
        number: 0,
        stamp: 0,
        args: [Value::Int(0); 4],
        arg_count: 0,
        payload: None,
    }
}

/// Puts a message behind the others that are deferred, if its handler says so.
fn keep(deferred: &mut Deferred, kept: Kept, message: Message) -> Result<(), Memory>
    ensures ok { OnOk result (deferred.new ≡ with_kept kept message deferred.old) }
    ensures err { OnErr result (deferred.new ≡ deferred.old) }
{
    let _parts = (message.args[0], message.payload);
    let eligible = match kept {
        Kept::No => return Ok(()),
        Kept::Stale => false,
        Kept::Eligible => true,
    };
    deferred.push(Waiting { message, eligible })
}

/// What the handler of a message does to the messages that are deferred. After an Err they are as before.
pub fn defer(deferred: &mut Deferred, ended: &Ended, message: &Message) -> Result<(), Memory>
    ensures ok { OnOk result (deferred.new ≡ with_kept ended.now.kept message.now
        (freed_if ended.now.freed message.now.block deferred.old)) }
    ensures err { OnErr result (deferred.new ≡ deferred.old) }
{
    let count = deferred.len();
    keep(deferred, ended.kept, *message)?;
    if ended.freed {
        deferred.free_first(count, message.block);
    }
    Ok(())
}

fn failure(end: End) -> Option<End>
    ensures { result ≡ failure end }
{
    match end {
        End::Fine => None,
        _ => Some(end),
    }
}

fn mode_after(woke: bool, block: BlockId, mode: Mode) -> Mode
    ensures { result ≡ mode_after woke block mode }
{
    match mode {
        Mode::Blocked(waits) => {
            if woke && block == waits {
                Mode::Woken
            } else {
                mode
            }
        }
        _ => mode,
    }
}

/// Handles a message at a block, and makes room on the wires for what is sent. Nothing changes at the node, and no
/// message on a wire.
///
/// Want of memory is the only error, and a handler that sends 65,536 messages or more is taken as such.
#[tactic(auto, using(crate::proofs::Posting::room_none))]
pub fn handle(
    alloc: Global,
    setup: &Setup,
    me: NodeId,
    stamp: u64,
    message: &Message,
    here: &Here,
    outboxes: &mut [Outbox],
) -> Result<Handling, Memory>
    requires served { is_served setup.now here.now ≡ true }
    requires me { me < length outboxes.old }
    requires room { AllRoom outboxes.old }
    ensures handling { IfOk result (IsHandling setup.now me stamp message.now here.now) }
    ensures same { HaveMadeRoom outboxes.old outboxes.new }
    ensures ready { IfOk result (λ handling. CanSend outboxes.new handling.sends) }
{
    let protocol = setup.protocol();
    let ended = run(alloc, protocol, here, message)?;
    let outs = ended.sends.items();
    let sends = outgoing(alloc, protocol, me, message.block, stamp, outs)?;
    if sends.len() > usize::from(u16::MAX) {
        return Err(Memory);
    }
    reserve_all(outboxes, sends.items())?;
    Ok(Handling { ended, sends })
}

/// The node comes to be as the handling leaves it, but for the messages that it deferred.
pub fn adopt(
    l: &mut Local,
    me: NodeId,
    act: Act,
    block: BlockId,
    stamp: u64,
    handling: Handling,
) -> Made
    requires block { block < length l.old.blocks }
    requires few { length handling.sends < 2 ^ 16 }
    requires sent { l.old.sent + length handling.sends < 2 ^ 32 }
    ensures node { l.new ≡ handled_node l.old block stamp handling }
    ensures made { result ≡ record { entry = handled_entry me act block stamp handling; sends = handling.sends } }
{
    let Handling { ended, sends } = handling;
    let count = sends.len();
    let after = After {
        block,
        state: ended.here.state.state,
        tag: ended.here.tag,
        end: ended.end,
    };
    l.mode = mode_after(ended.woke, block, l.mode);
    l.failed = failure(ended.end);
    l.clock = stamp;
    l.sent += count as u32;
    l.blocks.set(usize::from(block.get()), ended.here);
    Made {
        entry: Entry {
            stamp,
            node: me,
            act,
            sends: count as u16,
            after: Some(after),
        },
        sends,
    }
}
