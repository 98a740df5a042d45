use std::alloc::Global;
use std::process::Abort;
use std::test::Fail;
use tw_base::{BlockId, Data, Listed, Memory, Name, NodeId, NodeSet, Shape, Stack};

// Nodes, words, blocks and budget, and whether they are a shape.
const SHAPES: [(u8, u8, u8, u32, bool); 18] = [
    (1, 1, 1, 1, true),
    (8, 8, 64, 4340, true),
    (8, 8, 64, 4341, false),
    (1, 1, 1, 156_250, true),
    (1, 1, 1, 156_251, false),
    (4, 4, 16, 15_625, true),
    (4, 4, 16, 15_626, false),
    (0, 1, 1, 1, false),
    (9, 1, 1, 1, false),
    (255, 1, 1, 1, false),
    (1, 0, 1, 1, false),
    (1, 9, 1, 1, false),
    (1, 1, 0, 1, false),
    (1, 1, 65, 1, false),
    (1, 1, 64, 1, true),
    (1, 8, 1, 1, true),
    (1, 1, 1, 0, false),
    (8, 1, 1, 4_294_967_295, false),
];

#[test]
fn a_shape_has_limits(rt: HostRuntime) {
    for (nodes, words, blocks, budget, allowed) in SHAPES {
        let shape = Shape::new(nodes, words, blocks, budget);
        assert_eq!(rt;
            shape.is_some(),
            allowed,
            "{nodes} {words} {blocks} {budget}"
        );
        if let Some(shape) = shape {
            assert_eq!(rt;
                (shape.nodes(), shape.words(), shape.blocks()),
                (nodes, words, blocks)
            );
            assert_eq!(rt; shape.budget(), budget);
        }
    }
}

// Nodes and budget, and how many handler events a node may make.
const BUDGETS: [(u8, u32, u32); 5] = [
    (1, 1, 8),
    (1, 156_250, 1_250_000),
    (2, 50, 1200),
    (4, 4000, 320_000),
    (8, 4340, 1_249_920),
];

// Nodes, a block and its home.
const HOMES: [(u8, u8, u8); 6] = [
    (1, 63, 0),
    (3, 0, 0),
    (3, 2, 2),
    (3, 3, 0),
    (7, 63, 0),
    (8, 63, 7),
];

// Words in a block, blocks and an address, and its block and the place in it.
const PLACES: [(u8, u8, u64, Option<(u8, u8)>); 9] = [
    (1, 1, 0, Some((0, 0))),
    (1, 1, 1, None),
    (4, 3, 3, Some((0, 3))),
    (4, 3, 4, Some((1, 0))),
    (4, 3, 11, Some((2, 3))),
    (4, 3, 12, None),
    (8, 64, 511, Some((63, 7))),
    (8, 64, 512, None),
    (8, 64, 18_446_744_073_709_551_615, None),
];

#[test]
fn a_shape_has_places(rt: HostRuntime) -> Result<(), Fail> {
    for (nodes, budget, due) in BUDGETS {
        let shape = Shape::new(nodes, 1, 1, budget).ok_or("shape")?;
        assert_eq!(rt; shape.handler_budget(), due, "{nodes} {budget}");
    }
    for (nodes, block, due) in HOMES {
        let shape = Shape::new(nodes, 1, 64, 1).ok_or("shape")?;
        let block = BlockId::new(block).ok_or("block")?;
        assert_eq!(rt; shape.home(block).get(), due, "{nodes}");
    }
    for (words, blocks, address, due) in PLACES {
        let shape = Shape::new(1, words, blocks, 1).ok_or("shape")?;
        assert_eq!(rt; shape.size(), u32::from(words) * u32::from(blocks));
        let place = shape
            .place_of(address)
            .map(|place| (place.0.get(), place.1));
        assert_eq!(rt; place, due, "{words} {blocks} {address}");
    }
    Ok(())
}

#[test]
fn numbers_have_limits(rt: HostRuntime) {
    for number in 0..=255u8 {
        assert_eq!(rt;
            NodeId::new(number).map(|node| node.get()),
            if number < 8 { Some(number) } else { None }
        );
        assert_eq!(rt;
            BlockId::new(number).map(|block| block.get()),
            if number < 64 { Some(number) } else { None }
        );
    }
}

// Whether a set has just the members that a list of truth values names.
fn same(rt: &impl Abort, set: NodeSet, members: &[bool]) {
    let mut count = 0;
    for (number, member) in members.iter().enumerate() {
        if *member && count < 8 {
            count += 1;
        }
        if let Some(node) = NodeId::new((number % 256) as u8) {
            assert_eq!(rt; set.has(node), *member);
        }
    }
    assert_eq!(rt; set.count(), count);
}

#[test]
fn sets_are_lists_of_truth_values(rt: HostRuntime) -> Result<(), Fail> {
    // changes are put one after another: a node number below 8 is put in, 8 and above takes it out
    let changes = [
        3u8, 0, 7, 3, 11, 11, 5, 8, 1, 13, 2, 4, 6, 0, 15, 12, 9, 10, 14, 11, 8,
    ];
    let mut set = NodeSet::empty();
    let mut members = [false; 8];
    same(&rt, set, &members);
    for change in changes {
        let number = change % 8;
        let node = NodeId::new(number).ok_or("node")?;
        members[number as usize] = change < 8;
        set = if change < 8 {
            set.with(node)
        } else {
            set.without(node)
        };
        same(&rt, set, &members);
        let mut alone = [false; 8];
        alone[number as usize] = true;
        same(&rt, NodeSet::one(node), &alone);
    }
    Ok(())
}

#[test]
fn stack_gives_its_items(rt: HostRuntime) -> Result<(), Fail> {
    let alloc = rt.alloc();
    let listed = Stack::of(Vec::from_slice(alloc, &[5u8, 6])?).into_listed();
    assert_eq!(rt; listed.items(), [5, 6].as_slice());
    Ok(())
}

#[test]
fn memory_is_taken(rt: HostRuntime) -> Result<(), Fail> {
    let alloc = rt.alloc();
    assert_eq!(rt; taken(alloc), Ok(21));
    Ok(())
}

// A sum of what each call that takes memory gives.
fn taken(alloc: Global) -> Result<usize, Memory> {
    let name = Name::new(alloc, b"Stache")?;
    let copy = name.copy(alloc)?;
    let mut list = Listed::from_slice(alloc, &[4u8, 5])?;
    list.push(6)?;
    let mut more = Listed::new(alloc);
    more.push(7)?;
    list.append(more)?;
    let mut stack = Stack::new(alloc);
    stack.push(8u8)?;
    stack.push(9)?;
    let mut sum = 0;
    if name.is(b"Stache") && copy.bytes() == b"Stache".as_slice() && !copy.is(b"Stach") {
        sum += 1;
    }
    if list.items() == [4, 5, 6, 7].as_slice()
        && list.len() == 4
        && !list.is_empty()
        && list.get(3) == Some(&7)
        && list.get(4).is_none()
    {
        sum += 1;
    }
    if list.len() > 2 {
        list.set(1, 3);
        let removed = list.remove(0);
        if removed == 4 && list.pop() == Some(7) && list.items() == [3, 6].as_slice() {
            sum += 1;
        }
    }
    if stack.pop() == Some(9)
        && stack.pop() == Some(8)
        && stack.pop().is_none()
        && stack.is_empty()
    {
        sum += 1;
    }
    let vec = Listed::of(list.into_vec()).into_vec();
    let data = Data {
        words: [1, 2, 0, 0, 0, 0, 0, 0],
        len: 2,
    };
    if vec.len() == 2 && data.words[1] == 2 {
        sum += 17;
    }
    Ok(sum)
}
