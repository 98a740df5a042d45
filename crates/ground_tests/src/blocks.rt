use block_tags::Blocks;
use std::test::Fail;
use tw_base::{Access, BlockId, Data, NodeId, Shape, Tag};

/// The same by plain lists.
#[derive(Drop)]
struct Plain {
    tags: Vec<Tag>,
    words: Vec<u64>,
}

fn tag_by(number: u64) -> Tag {
    match number % 3 {
        0 => Tag::Invalid,
        1 => Tag::ReadOnly,
        _ => Tag::ReadWrite,
    }
}

fn same_data(a: &Data, b: &[u64]) -> bool {
    a.len as usize == b.len() && b.iter().zip(a.words.iter()).all(|(x, y)| *x == *y)
}

/// Both take a new tag.
fn retag(blocks: &mut Blocks, plain: &mut Plain, block: BlockId, tag: Tag) {
    if block.get() < blocks.shape().blocks() {
        blocks.set_tag(block, tag);
    }
    if let Some(at) = plain.tags.get_mut(block.get() as usize) {
        *at = tag;
    }
}

/// Stores, where both allow it. False where one allows it alone.
fn store(blocks: &mut Blocks, plain: &mut Plain, address: u32, value: u64) -> bool {
    if address >= blocks.shape().size() {
        return false;
    }
    let may = blocks.allows(Access {
        store: true,
        address: u64::from(address),
    });
    let block = address as usize / blocks.shape().words() as usize;
    if may != (plain.tags.get(block) == Some(&Tag::ReadWrite)) {
        return false;
    }
    if may {
        blocks.store(address, value);
        if let Some(at) = plain.words.get_mut(address as usize) {
            *at = value;
        }
    }
    true
}

/// Whether a load is allowed by both alike, and gives the same.
fn same_load(blocks: &Blocks, plain: &Plain, address: u32) -> bool {
    if address >= blocks.shape().size() {
        return false;
    }
    let may = blocks.allows(Access {
        store: false,
        address: u64::from(address),
    });
    let block = address as usize / blocks.shape().words() as usize;
    let word = plain.words.get(address as usize);
    if may {
        plain.tags.get(block) != Some(&Tag::Invalid) && word == Some(&blocks.load(address))
    } else {
        plain.tags.get(block) == Some(&Tag::Invalid) && word == Some(&blocks.peek(address))
    }
}

/// Both take new words for a block of eight.
fn install(blocks: &mut Blocks, plain: &mut Plain, block: BlockId, first: u64) {
    let words = [first, 1, 2, 3, 4, 5, 6, first];
    let start = 8 * block.get() as usize;
    if block.get() < blocks.shape().blocks() && blocks.shape().words() == 8 {
        blocks.install(block, Data { words, len: 8 });
    }
    if start + 8 <= plain.words.len() {
        plain.words[start..start + 8].copy_from_slice(&words);
    }
}

fn same_block(blocks: &Blocks, plain: &Plain, block: BlockId) -> bool {
    let start = 8 * block.get() as usize;
    block.get() < blocks.shape().blocks()
        && plain.tags.get(block.get() as usize) == Some(&blocks.tag(block))
        && start + 8 <= plain.words.len()
        && same_data(&blocks.words(block), &plain.words[start..start + 8])
}

fn turn(blocks: &mut Blocks, plain: &mut Plain, number: u64) -> bool {
    let Some(block) = BlockId::new((number / 8 % 64) as u8) else {
        return false;
    };
    let address = (number / 512 % 512) as u32;
    match number % 4 {
        0 => retag(blocks, plain, block, tag_by(number / 2048)),
        1 => install(blocks, plain, block, number),
        2 => return store(blocks, plain, address, number),
        _ => return same_load(blocks, plain, address),
    }
    true
}

#[test]
fn a_map_of_tags_and_words(rt: HostRuntime) -> Result<(), Fail> {
    let alloc = rt.alloc();
    let shape = Shape::new(3, 8, 64, 100).ok_or("limits")?;
    let me = NodeId::new(1).ok_or("node")?;
    let mut blocks = Blocks::new(alloc, shape, me, Tag::ReadWrite, Tag::Invalid, &[])?;
    let mut tags = vec![in alloc; Tag::Invalid; 64]?;
    for (k, tag) in tags.iter_mut().enumerate() {
        if k % 3 == 1 {
            *tag = Tag::ReadWrite;
        }
    }
    let mut plain = Plain {
        tags,
        words: vec![in alloc; 0; 512]?,
    };
    let mut number: u64 = 1;
    for _ in 0..4000 {
        number = number
            .wrapping_mul(6_364_136_223_846_793_005)
            .wrapping_add(1_442_695_040_888_963_407);
        assert!(rt; turn(&mut blocks, &mut plain, number >> 20), "at {number}");
    }
    for k in 0..64 {
        let block = BlockId::new(k).ok_or("block")?;
        assert!(rt; same_block(&blocks, &plain, block), "block {k}");
    }
    Ok(())
}

#[test]
fn starts_by_home_and_init(rt: HostRuntime) -> Result<(), Fail> {
    let shape = Shape::new(2, 2, 3, 100).ok_or("limits")?;
    let me = NodeId::new(1).ok_or("node")?;
    let blocks = Blocks::new(
        rt.alloc(),
        shape,
        me,
        Tag::ReadOnly,
        Tag::Invalid,
        &[(1, 7), (4, 9)],
    )?;
    let mut seen = vec![in rt.alloc()]?;
    for address in 0..blocks.shape().size() {
        seen.push(blocks.peek(address))?;
    }
    assert_eq!(rt; seen.as_slice(), [0, 7, 0, 0, 9, 0].as_slice());
    for k in 0..blocks.shape().blocks() {
        let block = BlockId::new(k).ok_or("block")?;
        let want = if k == 1 { Tag::ReadOnly } else { Tag::Invalid };
        assert_eq!(rt; blocks.tag(block), want);
    }
    Ok(())
}
