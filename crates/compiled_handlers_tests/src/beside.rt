//! Two blocks of a node whose suspended chains are in one store: a message at one leaves the chain of the other as it was.

ghost use Rattle.std.specs.Prelude.{◌≡◌, ◌^◌, ◌<◌, OnOk, length};
ghost use Rattle.teapot_tree.specs.declared.protocol.Protocol.{Protocol};
ghost use Rattle.handler_code.specs.declared.code.Code.{Code};
ghost use Rattle.handler_vm.specs.Chains.{records_of};
ghost use Rattle.compiled_meaning.specs.Whole.{IsCode};
ghost use Rattle.compiled_handlers_tests.specs.Alike.{Alike};
ghost use Rattle.compiled_handlers_tests.specs.Beside.{IsBeside};

use crate::both::{Both, Side, another, first, go_on, handled};
use crate::chain::{depth, same_chain};
use crate::protocols::{compiled, protocol};
use crate::shown::put_value;
use crate::worked::message;
use block_tags::Blocks;
use handler_code::Code;
use handler_vm::Cell;
use std::alloc::Global;
use std::fmt::Write;
use std::mem;
use std::process::Abort;
use std::test::Fail;
use teapot_meaning::Here;
use teapot_tree::Checked;
use tw_base::{BlockId, Message, NodeId, Shape, Tag};

// Each block in the place of the other.
fn exchange(both: &mut Both, side: &mut Side)
    ensures block { both.new.here.block ≡ side.old.here.block }
    ensures conts { both.new.conts ≡ both.old.conts }
    ensures alike { (p : Protocol) (code : Code) →
        IsBeside p code (record { cell = both.old.cell; blocks = both.old.blocks; conts = both.old.conts }) both.old.here.block
        side.old.cell side.old.here →
        Alike p code (record { cell = both.new.cell; blocks = both.new.blocks; conts = both.new.conts }) both.new.here }
    ensures beside { (p : Protocol) (code : Code) →
        Alike p code (record { cell = both.old.cell; blocks = both.old.blocks; conts = both.old.conts }) both.old.here →
        IsBeside p code (record { cell = both.old.cell; blocks = both.old.blocks; conts = both.old.conts }) both.old.here.block
        side.old.cell side.old.here →
        IsBeside p code (record { cell = both.new.cell; blocks = both.new.blocks; conts = both.new.conts }) both.new.here.block side.new.cell side.new.here }
{
    mem::swap(&mut both.cell, &mut side.cell);
    mem::swap(&mut both.here, &mut side.here);
}

// A message at the first of two blocks.
fn turn_here(
    alloc: Global,
    code: &Code,
    p: &Checked,
    both: &mut Both,
    side: &Side,
    m: &Message,
) -> Result<(), Fail>
    requires code { IsCode p.now code.now }
    requires short { length code.now.ops < 2 ^ 22 }
    requires alike { Alike p.now code.now (record { cell = both.old.cell; blocks = both.old.blocks; conts = both.old.conts })
        both.old.here }
    requires beside { IsBeside p.now code.now (record { cell = both.old.cell; blocks = both.old.blocks; conts = both.old.conts })
        both.old.here.block side.now.cell side.now.here }
    ensures block { OnOk result (both.new.here.block ≡ m.now.block) }
    ensures alike { OnOk result (Alike p.now code.now (record { cell = both.new.cell; blocks = both.new.blocks; conts = both.new.conts })
        both.new.here) }
    ensures beside { OnOk result (IsBeside p.now code.now (record {
      cell = both.new.cell;
      blocks = both.new.blocks;
      conts = both.new.conts;
    }) both.new.here.block side.now.cell side.now.here) }
    ensures records { OnOk result (records_of both.new.conts side.now.cell.cont ≡ records_of both.old.conts side.now.cell.cont) }
{
    let (_ran, end) = handled(alloc, code, p, both, m)?;
    go_on(code, both, end)?;
    Ok(())
}

// Handles a message at the one of two blocks that it is for, which is then the first. The chain of the other stays its own:
// it is whole, has no record in common with the first's, and has the records that it had.
fn turn(
    alloc: Global,
    code: &Code,
    p: &Checked,
    both: &mut Both,
    side: &mut Side,
    m: &Message,
) -> Result<(), Fail>
    requires code { IsCode p.now code.now }
    requires short { length code.now.ops < 2 ^ 22 }
    requires alike { Alike p.now code.now (record { cell = both.old.cell; blocks = both.old.blocks; conts = both.old.conts })
        both.old.here }
    requires beside { IsBeside p.now code.now (record { cell = both.old.cell; blocks = both.old.blocks; conts = both.old.conts })
        both.old.here.block side.old.cell side.old.here }
    ensures block { OnOk result (both.new.here.block ≡ m.now.block) }
    ensures alike { OnOk result (Alike p.now code.now (record { cell = both.new.cell; blocks = both.new.blocks; conts = both.new.conts })
        both.new.here) }
    ensures beside { OnOk result (IsBeside p.now code.now (record {
      cell = both.new.cell;
      blocks = both.new.blocks;
      conts = both.new.conts;
    }) both.new.here.block side.new.cell side.new.here) }
    ensures records { OnOk result (records_of both.new.conts side.new.cell.cont ≡ records_of both.old.conts side.new.cell.cont) }
{
    if m.block == side.here.block {
        exchange(both, side);
        return turn_here(alloc, code, p, both, side, m);
    }
    turn_here(alloc, code, p, both, side, m)
}

// How many records a block has, and its first info.
fn put_block(out: &mut String, cell: &Cell, here: &Here) -> Result<(), Fail> {
    write!(out, " {}", depth(&here.state, 9))?;
    put_value(out, cell.infos[0])
}

// The same of both blocks, in the order of their numbers.
fn blocks_shown(alloc: Global, both: &Both, side: &Side) -> Result<String, Fail> {
    let mut out = String::new(alloc);
    if both.here.block.get() < side.here.block.get() {
        put_block(&mut out, &both.cell, &both.here)?;
        put_block(&mut out, &side.cell, &side.here)?;
    } else {
        put_block(&mut out, &side.cell, &side.here)?;
        put_block(&mut out, &both.cell, &both.here)?;
    }
    Ok(out)
}

// Whether the records of the second block are those of the interpreter's continuations, as those of the first are.
fn is_same_beside(code: &Code, p: &Checked, both: &Both, side: &Side) -> bool
    requires { IsBeside p.now code.now (record { cell = both.now.cell; blocks = both.now.blocks; conts = both.now.conts })
        both.now.here.block side.now.cell side.now.here }
{
    let _protocol = p.protocol();
    same_chain(code, &both.conts, side.cell.cont, &side.here.state, 9)
}

// Messages at two blocks, after each of which both have the chains that are due.
fn turns(
    rt: &impl Abort,
    alloc: Global,
    code: &Code,
    p: &Checked,
    both: &mut Both,
    side: &mut Side,
) -> Result<(), Fail>
    requires code { IsCode p.now code.now }
    requires short { length code.now.ops < 2 ^ 22 }
    requires alike { Alike p.now code.now (record { cell = both.old.cell; blocks = both.old.blocks; conts = both.old.conts })
        both.old.here }
    requires beside { IsBeside p.now code.now (record { cell = both.old.cell; blocks = both.old.blocks; conts = both.old.conts })
        both.old.here.block side.old.cell side.old.here }
{
    for (block, word, due) in &TURNS {
        let block = BlockId::new(*block).ok_or("block")?;
        let m = message(p.protocol(), word, block)?;
        turn(alloc, code, p, both, side, &m)?;
        assert!(rt; is_same_beside(code, p, both, side), "{word}");
        assert_eq!(rt; blocks_shown(alloc, both, side)?.as_str(), *due, "{word}");
    }
    Ok(())
}

// Two blocks of one word.
fn blocks(alloc: Global) -> Result<Blocks, Fail> {
    let shape = Shape::new(8, 1, 2, 1).ok_or("limits")?;
    let me = NodeId::new(1).ok_or("node")?;
    Ok(Blocks::new(
        alloc,
        shape,
        me,
        Tag::Invalid,
        Tag::Invalid,
        &[(0, 5), (1, 6)],
    )?)
}

#[test]
fn two_blocks_in_one_store(rt: HostRuntime) -> Result<(), Fail> {
    let alloc = rt.alloc();
    let p = protocol(alloc, NESTED.as_bytes())?;
    let code = compiled(alloc, &p)?;
    let block = BlockId::new(0).ok_or("block")?;
    let other = BlockId::new(1).ok_or("block")?;
    let mut both = first(alloc, &p, 0, blocks(alloc)?, block)?;
    let mut side = another(alloc, &p, 0, &both, other)?;
    turns(&rt, alloc, &code, &p, &mut both, &mut side)
}

// The block, the message, and how many records blocks 0 and 1 have then, with their first infos. A suspension leaves its
// sender there when it is resumed.
static TURNS: [(u8, &str, &str); 12] = [
    (0, "GO@3", " 1@0 0@0"),
    (1, "GO@4", " 1@0 1@0"),
    (0, "GO@5", " 2@0 1@0"),
    (1, "GO@6", " 2@0 2@0"),
    (1, "GO@7", " 2@0 3@0"),
    (0, "UP@2", " 1@5 3@0"),
    (1, "UP@2", " 1@5 2@7"),
    (0, "GO@2", " 2@5 2@7"),
    (1, "UP@2", " 2@5 1@6"),
    (0, "UP@2", " 1@2 1@6"),
    (0, "UP@2", " 0@3 1@6"),
    (1, "UP@2", " 0@3 0@4"),
];

// Suspensions within each other, each of which keeps its sender.
const NESTED: &str = "Protocol Nested
Message GO() 0
Message UP() 1
Info last Node
HomeStart A ReadWrite
CacheStart A Invalid
State A{}
Begin
  On GO()
  Begin
    Local x Node
    x := src
    Suspend(L, W{; L})
    last := x
  End
  Default
  Begin
    Error(Unknown)
  End
End
State W{; C}
Begin
  On GO()
  Begin
    Local x Node
    x := src
    Suspend(L, W{; L})
    last := x
  End
  On UP()
  Begin
    Resume(C)
  End
  Default
  Begin
    Error(Unknown)
  End
End
";
