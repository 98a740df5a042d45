ghost use Rattle.std.specs.Prelude.{◌≡◌, ◌<◌, ◌≤◌, length, Some, true};
ghost use Rattle.teapot_meaning.specs.Fits.{is_known};
ghost use Rattle.block_tags.specs.Copies.{block_words, tag_of};
ghost use Rattle.handler_code.specs.Doors.{door_for, entered, filled, locals_of};
ghost use Rattle.handler_code.specs.Machine.{Runs, Stopped, state_arity};
ghost use Rattle.handler_vm.specs.Chains.{IsChain, IsFull, KeepsOthers, saved_from};
ghost use Rattle.handler_vm.specs.Inside.{begun};
ghost use Rattle.handler_vm.specs.Leaves.{Leaves, Stops, StopsAt, kept_of};
ghost use Rattle.handler_vm.specs.Order.{IsInOrder};
ghost use Rattle.handler_vm.specs.Room.{HasRoom};
ghost use Rattle.handler_vm.specs.Tables.{IsTableOf};

use crate::around::Around;
use crate::cell::{Cell, Ran};
use crate::doors::{Doors, Entry, entry_for};
use crate::enter::enter_slots;
use crate::running::Running;
use crate::unsent::Unsent;
use crate::values::Args;
use crate::work::state_arity;
use block_tags::Blocks;
use cont_store::Conts;
use handler_code::{Code, stops_once};
use teapot_meaning::Kept;
use teapot_tree::Checked;
use tw_base::{End, Message, NodeId, Value};

fn copied(infos: &[Value; 8]) -> [Value; 8]
    ensures { result ≡ infos.now }
{
    let mut places = [Value::Int(0); 8];
    places.copy_from_slice(infos);
    places
}

/// A message enters the code at a door: of the run before it nothing is left.
fn enter(
    run: &mut Running,
    p: &Checked,
    entry: &Entry,
    cell: &Cell,
    blocks: &Blocks,
    me: NodeId,
    home: NodeId,
    m: &Message,
)
    requires few { entry.now.door.now.slots ≤ 21 }
    requires locals { entry.now.handler.now.locals ≡ locals_of p.now entry.now.door.now }
    requires declared { cell.now.state < length p.now.states }
    requires block { m.now.block < blocks.now.shape.blocks }
    ensures run { run.new ≡ begun p.now entry.now.door.now me home (tag_of blocks.now m.now.block)
        (block_words blocks.now m.now.block) cell.now m.now }
    ensures words { length (block_words blocks.now m.now.block) ≡ blocks.now.shape.words }
    ensures places { length cell.now.args ≡ 4 }
{
    let args = Args::first(&cell.args, state_arity(p.protocol(), cell.state));
    run.at = entry.door.at as usize;
    enter_slots(&mut run.slots, entry, &args, m);
    run.stack.clear();
    run.came = m.payload;
    run.me = me;
    run.home = home;
    run.block = m.block;
    run.infos = copied(&cell.infos);
    run.tag = blocks.tag(m.block);
    run.words = blocks.words(m.block);
    run.kept = Kept::No;
    run.freed = false;
    run.woke = false;
    run.state = cell.state;
    run.args = args;
    run.cont = cell.cont;
    run.ops = 0;
    run.records = 0;
}

/// Keeps what a run left of its cell.
fn leave(r: &Running, cell: &mut Cell, end: End) -> Ran
    ensures result { result ≡ record {
      kept = r.now.kept;
      freed = r.now.freed;
      woke = r.now.woke;
      end = end;
      ops = r.now.ops;
      records = r.now.records;
    } }
    ensures cell { cell.new ≡ record { state = r.now.state; args = filled 4 r.now.args; cont = r.now.cont; infos = r.now.infos } }
{
    cell.state = r.state;
    cell.args = r.args.places();
    cell.cont = r.cont;
    cell.infos = copied(&r.infos);
    Ran {
        kept: r.kept,
        freed: r.freed,
        woke: r.woke,
        end,
        ops: r.ops,
        records: r.records,
    }
}

/// Runs the code from a door on.
fn run_at(
    code: &Code,
    p: &Checked,
    entry: &Entry,
    cell: &mut Cell,
    blocks: &mut Blocks,
    conts: &mut Conts,
    me: NodeId,
    home: NodeId,
    m: &Message,
    run: &mut Running,
    unsent: &mut Unsent,
) -> Ran
    requires is_door { door_for code.now cell.old.state m.now.kind ≡ Some entry.now.door.now }
    requires locals { entry.now.handler.now.locals ≡ locals_of p.now entry.now.door.now }
    requires declared { cell.old.state < length p.now.states }
    requires room { HasRoom p.now code.now }
    requires stops { Stops p.now code.now me home cell.old blocks.old conts.old m.now }
    requires chain { IsChain blocks.old.shape.words conts.old cell.old.cont }
    requires spare { 1 ≤ conts.old.spare }
    requires block { m.now.block < blocks.old.shape.blocks }
    requires full { IsFull blocks.old.shape.words m.now.payload }
    ensures leaves { (e : Stopped)
        × Runs p.now code.now (entered p.now entry.now.door.now me home m.now.block (tag_of blocks.old m.now.block)
        (block_words blocks.old m.now.block) (kept_of p.now cell.old) (saved_from p.now conts.old cell.old.cont) m.now) e
        × Leaves p.now me m.now cell.old cell.new blocks.old blocks.new conts.new unsent.new.sent result e }
    ensures chain { IsChain blocks.old.shape.words conts.new cell.new.cont }
    ensures others { KeepsOthers conts.old conts.new cell.old.cont cell.new.cont }
    ensures room { unsent.new.room ≡ unsent.old.room }
{
    unsent.clear();
    enter(run, p, entry, cell, blocks, me, home, m);
    let end = run.go(code, p.protocol(), conts, unsent);
    blocks.set_tag(m.block, run.tag);
    blocks.install(m.block, run.words);
    leave(run, cell, end)
}

/// Runs the code of a protocol on a message for a block, from the door that the message's kind has in the block's state,
/// to its end. It takes no memory.
///
/// The cell, the block, the chain of records that the cell names and the sends are then those of the stop that the machine
/// of ops comes to.
pub fn run(
    code: &Code,
    doors: &Doors,
    p: &Checked,
    cell: &mut Cell,
    blocks: &mut Blocks,
    conts: &mut Conts,
    me: NodeId,
    home: NodeId,
    m: &Message,
    around: &mut Around,
) -> Ran
    requires room { HasRoom p.now code.now }
    requires doors { IsTableOf p.now code.now doors.now }
    requires order { IsInOrder p.now code.now }
    requires known { is_known p.now m.now.kind ≡ true }
    requires stops { Stops p.now code.now me home cell.old blocks.old conts.old m.now }
    requires chain { IsChain blocks.old.shape.words conts.old cell.old.cont }
    requires spare { 1 ≤ conts.old.spare }
    requires block { m.now.block < blocks.old.shape.blocks }
    requires full { IsFull blocks.old.shape.words m.now.payload }

    ensures leaves { (e : Stopped) → StopsAt p.now code.now me home cell.old blocks.old conts.old m.now e →
        Leaves p.now me m.now cell.old cell.new blocks.old blocks.new conts.new around.new.sent result e }

    // The chain is whole again, and all other records stay.
    ensures chain { IsChain blocks.old.shape.words conts.new cell.new.cont }
    ensures others { KeepsOthers conts.old conts.new cell.old.cont cell.new.cont }
    ensures room { around.new.room ≡ around.old.room }
{
    stops_once();
    let entry = entry_for(code, doors, p, cell.state, m.kind);
    run_at(
        code,
        p,
        &entry,
        cell,
        blocks,
        conts,
        me,
        home,
        m,
        &mut around.run,
        &mut around.unsent,
    )
}
