ghost use Rattle.std.specs.Prelude.{◌≡◌, ◌^◌, ◌<◌, ◌≤◌, IfOk, length};
ghost use Rattle.teapot_meaning.specs.Does.{Does};
ghost use Rattle.teapot_meaning.specs.Fits.{Fits, IsMessageOf};
ghost use Rattle.teapot_meaning.specs.declared.state.Ended.{Ended};
ghost use Rattle.teapot_meaning.specs.declared.state.Here.{Here};
ghost use Rattle.handler_code.specs.Machine.{Stopped};
ghost use Rattle.handler_vm.specs.Chains.{IsChain, KeepsOthers};
ghost use Rattle.handler_vm.specs.Leaves.{Leaves, StopsAt};
ghost use Rattle.handler_vm.specs.Tables.{IsTableOf};
ghost use Rattle.compiled_meaning.specs.Whole.{IsCode};
ghost use Rattle.compiled_handlers.specs.Standing.{BlockStands, DoesAsMeant, IsBlockOf};

use crate::laws::code_is_lawful;
use block_tags::Blocks;
use cont_store::Conts;
use handler_code::Code;
use handler_vm::{Around, Cell, Doors, Ran, run};
use std::alloc::Global;
use teapot_tree::Checked;
use tw_base::{Memory, Message, NodeId};

/// Finds the doors of a protocol's code, for all messages that are handled by it.
pub fn doors(alloc: Global, code: &Code, p: &Checked) -> Result<Doors, Memory>
    requires { IsCode p.now code.now }
    ensures { IfOk result (λ d. IsTableOf p.now code.now d) }
{
    Doors::new(alloc, code, p)
}

/// Handles a message for a block by the protocol's code. It takes no memory.
///
/// What is done is what the message means at the block that the cell, its records, and the block's tag and words stand for,
/// and what they are afterwards stands for the block that the meaning leaves. It is the stop that the machine of ops comes
/// to, with its counts of ops and records. All other blocks and records stay, and the chain of records is whole again.
/// The doors are those of the code, found before the first message.
pub fn handle(
    code: &Code,
    doors: &Doors,
    p: &Checked,
    cell: &mut Cell,
    blocks: &mut Blocks,
    conts: &mut Conts,
    me: NodeId,
    home: NodeId,
    m: &Message,
    around: &mut Around,
) -> Ran
    requires code { IsCode p.now code.now }
    requires doors { IsTableOf p.now code.now doors.now }
    requires short { length code.now.ops < 2 ^ 22 }
    requires stands { (here : Here)
        × IsBlockOf me home m.now.block here
        × Fits p.now here
        × BlockStands p.now code.now (record { cell = cell.old; blocks = blocks.old; conts = conts.old }) here }
    requires message { IsMessageOf p.now blocks.old.shape.words m.now }
    requires block { m.now.block < blocks.old.shape.blocks }
    requires spare { 1 ≤ conts.old.spare }
    ensures meant { (here : Here) (e : Ended) →
        IsBlockOf me home m.now.block here →
        Fits p.now here →
        BlockStands p.now code.now (record { cell = cell.old; blocks = blocks.old; conts = conts.old }) here →
        Does p.now here m.now e →
        DoesAsMeant p.now code.now me home m.now.block (record { cell = cell.old; blocks = blocks.old; conts = conts.old }) (record { cell = cell.new; blocks = blocks.new; conts = conts.new }) around.new.sent result e }
    ensures machine { (e : Stopped)
        × StopsAt p.now code.now me home cell.old blocks.old conts.old m.now e
        × Leaves p.now me m.now cell.old cell.new blocks.old blocks.new conts.new around.new.sent result e }
    ensures few { result.ops ≤ 2 ^ 62 }
    ensures chain { IsChain blocks.old.shape.words conts.new cell.new.cont }
    ensures others { KeepsOthers conts.old conts.new cell.old.cont cell.new.cont }
    ensures room { around.new.room ≡ around.old.room }
{
    code_is_lawful();
    let _shape = blocks.shape();
    let _protocol = p.protocol();
    run(code, doors, p, cell, blocks, conts, me, home, m, around)
}
