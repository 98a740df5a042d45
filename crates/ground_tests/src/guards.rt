use blizzard_guard::{GuardOp, Look, Looked, Processor, check_access, guard, plain_place};
use block_tags::Blocks;
use mini_asm::{Instr, Next, Program, parse_program};
use std::alloc::Global;
use std::test::Fail;
use tw_base::{Access, BlockId, NodeId, Shape, Tag, Trap};
use tw_lex::lines;

/// It loads a word, until it is not 0, and stores it in the next; it adds it to the first, and then loads past the
/// memory.
const TEXT: &str =
    "li r1 2\nagain:\nld r2 r1 0\nbeq r2 r0 again\nst r2 r1 1\nfaa r3 r2 r1 0\nld r2 r1 9\nhalt";

fn program(alloc: Global) -> Result<Program, Fail> {
    let bytes = TEXT.as_bytes();
    if bytes.len() > 1_048_576 {
        return Err("too long".into());
    }
    let lexed = lines(alloc, bytes)?;
    Ok(parse_program(alloc, lexed.list.items(), 2)?)
}

/// Two blocks of two words, both invalid.
fn blocks(alloc: Global) -> Result<Blocks, Fail> {
    let shape = Shape::new(1, 2, 2, 100).ok_or("shape")?;
    let me = NodeId::new(0).ok_or("node")?;
    Ok(Blocks::new(alloc, shape, me, Tag::Invalid, Tag::Invalid, &[])?)
}

/// Gives the second block a tag.
fn retag(blocks: &mut Blocks, tag: Tag) -> Result<(), Fail> {
    let block = BlockId::new(1).ok_or("block")?;
    if block.get() < blocks.shape().blocks() {
        blocks.set_tag(block, tag);
    }
    Ok(())
}

fn access(store: bool, address: u32, value: u64) -> Look {
    Look::Goes(Next::Access {
        store,
        address,
        value,
    })
}

#[test]
fn jumps_go_to_checks(rt: HostRuntime) -> Result<(), Fail> {
    let alloc = rt.alloc();
    let guarded = guard(alloc, &program(alloc)?)?;
    let load = GuardOp::Check {
        store: false,
        base: 1,
        offset: 0,
    };
    let add = GuardOp::Check {
        store: true,
        base: 1,
        offset: 0,
    };
    assert_eq!(rt; guarded.ops.get(1).copied(), Some(load));
    assert_eq!(rt;
        guarded.ops.get(3).copied(),
        Some(GuardOp::Do(Instr::Beq(2, 0, 1)))
    );
    assert_eq!(rt; guarded.ops.get(6).copied(), Some(add));
    assert_eq!(rt; guarded.ops.len(), 11);
    Ok(())
}

#[test]
fn each_op_has_its_plain_place(rt: HostRuntime) -> Result<(), Fail> {
    let alloc = rt.alloc();
    let guarded = guard(alloc, &program(alloc)?)?;
    let places = [0, 1, 1, 2, 3, 3, 4, 4, 5, 5, 6, 7];
    assert_eq!(rt; guarded.plain.len(), places.len());
    for (at, place) in places.iter().enumerate() {
        if at < guarded.plain.len() {
            assert_eq!(rt; plain_place(&guarded, at as u32), *place);
        }
    }
    Ok(())
}

#[test]
fn a_hit_and_a_miss(rt: HostRuntime) -> Result<(), Fail> {
    let mut blocks = blocks(rt.alloc())?;
    retag(&mut blocks, Tag::ReadOnly)?;
    let rows = [
        (false, 1, Looked::Miss),
        (false, 2, Looked::Hit),
        (true, 2, Looked::Miss),
    ];
    for (store, address, found) in rows {
        if address < u64::from(blocks.shape().size()) {
            assert_eq!(rt; check_access(&blocks, Access { store, address }), found);
        }
    }
    Ok(())
}

#[test]
fn a_processor_asks_the_tags(rt: HostRuntime) -> Result<(), Fail> {
    let alloc = rt.alloc();
    let mut blocks = blocks(alloc)?;
    let mut processor = Processor::new(alloc, &program(alloc)?)?;
    let refused = |store, address| Look::Refused { store, address };
    let rows = [
        (Tag::Invalid, Look::Goes(Next::Step)),
        (Tag::Invalid, refused(false, 2)),
        (Tag::ReadOnly, access(false, 2, 0)),
        (Tag::Invalid, Look::Goes(Next::Step)),
        (Tag::ReadOnly, refused(true, 3)),
        (Tag::ReadWrite, access(true, 3, 7)),
        (Tag::ReadOnly, refused(true, 2)),
        (
            Tag::ReadWrite,
            Look::Goes(Next::Faa {
                address: 2,
                added: 7,
            }),
        ),
        (Tag::Invalid, Look::Goes(Next::Trap(Trap::BadAddress))),
        (Tag::Invalid, Look::Goes(Next::Halt)),
    ];
    for (tag, due) in rows {
        retag(&mut blocks, tag)?;
        let look = processor.look(&blocks);
        assert_eq!(rt; look, due);
        if let Look::Goes(_) = look {
            processor.finish(7);
        }
    }
    assert_eq!(rt; processor.cpu().place, 6);
    assert_eq!(rt; processor.cpu().regs[3], 7);
    Ok(())
}
