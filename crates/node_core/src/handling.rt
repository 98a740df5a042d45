ghost use Rattle.std.specs.Prelude.{◌≡◌, ◌<◌, ◌≤◌, ◌^◌, length};
ghost use Rattle.dsm_runs.specs.Events.{failure, mode_after};
ghost use Rattle.dsm_runs.specs.Messages.{fault};
ghost use Rattle.node_core.specs.Handlers.{CanHandle, CanSettle, HasHandled, HasRun, HasSettled};
ghost use Rattle.node_meaning.specs.Handling.{IsBounded};

use crate::posting::post_all;
use crate::state::State;
use dsm_runs::{Mode, Setup};
use handler_code::Code;
use handler_vm::{Cell, Ran};
use node_meaning::nodes_are_ready_for_handlers;
use tw_base::{Act, After, BlockId, Chan, End, Entry, Kind, Message, NodeId, Value};

/// The message of a refused access.
pub fn fault_of(store: bool, block: BlockId, me: NodeId) -> Message
    ensures { result ≡ fault store block me }
{
    Message {
        kind: if store { Kind::WrFault } else { Kind::RdFault },
        block,
        from: me,
        to: me,
        chan: Chan::Zero,
        number: 0,
        stamp: 0,
        args: [Value::Int(0); 4],
        arg_count: 0,
        payload: None,
    }
}

/// The mode after a handler for the block, which may have woken the node.
fn mode_after(woke: bool, block: BlockId, mode: Mode) -> Mode
    ensures { result ≡ mode_after woke block mode }
{
    match mode {
        Mode::Blocked(waits) => {
            if woke && block == waits {
                Mode::Woken
            } else {
                mode
            }
        }
        _ => mode,
    }
}

fn failure(end: End) -> Option<End>
    ensures { result ≡ failure end }
{
    match end {
        End::Fine => None,
        _ => Some(end),
    }
}

/// A cell has eight infos.
fn has_infos(cell: &Cell)
    ensures { length cell.now.infos ≡ 8 }
{
    let infos: &[Value] = &cell.infos;
    let _count = infos.len();
}

/// Runs the handler of a message at its block.
fn run(setup: &Setup, code: &Code, me: NodeId, state: &mut State, message: &Message) -> Ran
    requires { CanHandle setup.now code.now me state.old message.now }
    ensures { HasRun setup.now code.now me state.old state.new message.now result }
{
    let home = setup.shape().home(message.block);
    let at = usize::from(message.block.get());
    let cell = &mut state.cells[at];
    has_infos(cell);
    let ran = compiled_handlers::handle(
        code,
        &state.doors,
        setup.protocol(),
        cell,
        &mut state.blocks,
        &mut state.conts,
        me,
        home,
        message,
        &mut state.around,
    );
    has_infos(cell);
    ran
}

/// Does what a run says of the rest of the node, in an event of this stamp.
fn settle(state: &mut State, message: &Message, ran: &Ran, stamp: u64)
    requires can { CanSettle state.old }
    requires bounded { IsBounded state.old.around.sent ran.now }
    requires ops { ran.now.ops ≤ 2 ^ 62 }
    requires block { message.now.block < state.old.deferred.blocks }
    ensures { HasSettled state.old state.new message.now ran.now stamp }
{
    state.deferred.settle(ran.kept, ran.freed, message);
    state.mode = mode_after(ran.woke, message.block, state.mode);
    state.failed = failure(ran.end);
    state.clock = stamp;
    state.sent += state.around.sends().len() as u32;
    post_all(&mut state.out, stamp, state.around.sends());
    state.ops += ran.ops;
    state.records += u32::from(ran.records);
}

/// Handles a message in an event of this act and stamp. It takes no memory: the room was made before.
pub fn handle(
    setup: &Setup,
    code: &Code,
    me: NodeId,
    state: &mut State,
    message: &Message,
    act: Act,
    stamp: u64,
)
    requires { CanHandle setup.now code.now me state.old message.now }
    ensures { HasHandled setup.now code.now me state.old state.new message.now act stamp }
{
    nodes_are_ready_for_handlers();
    let ran = run(setup, code, me, state, message);
    settle(state, message, &ran, stamp);
    let after = After {
        block: message.block,
        state: state.cells[usize::from(message.block.get())].state,
        tag: state.blocks.tag(message.block),
        end: ran.end,
    };
    state.log.push(Entry {
        stamp,
        node: me,
        act,
        sends: state.around.sends().len() as u16,
        after: Some(after),
    });
    state.ready = false;
}
