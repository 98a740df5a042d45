use crate::reading::{make, protocol, setup, verdict};
use coherence_check::{Broken, holds, holds_d, holds_l};
use coherence_reads::Part;
use driven_rows::COPY_KEPT;
use dsm_model::{Global, Setup};
use shipped_text::STACHE;
use stache_check::Directory;
use stache_d_text::STACHE_D;
use stache_l_text::STACHE_L;
use std::alloc;
use std::process::Abort;
use std::test::Fail;
use tw_base::{BlockId, Listed};

/// Node 0 reads a word of node 1, which writes it.
const READER: &str = "tempest 1
nodes 2
words 1
blocks 2
program 0
ld r1 r0 1
halt
end
program 1
li r1 5
st r1 r0 1
halt
end
";

/// Node 0 writes a word of node 1.
const WRITER: &str = "tempest 1
nodes 2
words 1
blocks 2
program 0
st r0 r0 1
halt
end
";

/// Three nodes read a word of node 1.
const READERS: &str = "tempest 2
nodes 4
words 1
blocks 2
program 0
ld r1 r0 1
halt
end
program 2
ld r1 r0 1
halt
end
program 3
ld r1 r0 1
halt
end
";

// The protocol's text.
fn text_of(directory: Directory) -> &'static str {
    match directory {
        Directory::Stache => STACHE,
        Directory::StacheD => STACHE_D,
        Directory::StacheL => STACHE_L,
    }
}

// A text with another one at the first place of one.
fn edited(alloc: alloc::Global, own: &str, old: &str, new: &str) -> Result<String, Fail> {
    let (before, after) = own.split_once(old).ok_or("an edit of nothing")?;
    let mut text = String::from_str(alloc, before)?;
    text.push_str(new)?;
    text.push_str(after)?;
    Ok(text)
}

// Whether a part holds of a block, if there is such a block.
fn has(g: &Global, directory: Directory, block: BlockId, part: Part) -> bool {
    if block.get() >= g.setup().shape().blocks() {
        return false;
    }
    match directory {
        Directory::Stache => holds(g, block, part),
        Directory::StacheD => holds_d(g, block, part),
        Directory::StacheL => holds_l(g, block, part),
    }
}

// Which parts hold of a block.
fn parts_of(
    alloc: alloc::Global,
    g: &Global,
    directory: Directory,
    block: BlockId,
) -> Result<String, Fail> {
    let mut held = String::new(alloc);
    let parts = [
        (Part::First, "1"),
        (Part::Second, "2"),
        (Part::Third, "3"),
        (Part::Fourth, "4"),
        (Part::Fifth, "5"),
        (Part::Sixth, "6"),
        (Part::Seventh, "7"),
    ];
    for (part, number) in parts {
        if has(g, directory, block, part) {
            held.push_str(number)?;
        }
    }
    Ok(held)
}

/// An edit of a protocol, and what it breaks.
struct Edit {
    /// What stands in the protocol's text, and what it says instead.
    old: &'static str,
    new: &'static str,
    /// The machine, the events that are made, and which parts then hold of block 1.
    text: &'static str,
    events: &'static str,
    held: &'static str,
}

// Makes events, each of which is enabled.
fn make_all(
    rt: &impl Abort,
    alloc: alloc::Global,
    g: &mut Global,
    events: &str,
) -> Result<(), Fail> {
    let mut entries = Listed::new(alloc);
    for row in events.split('\n') {
        let made = make(alloc, g, row, &mut entries)?;
        assert!(rt; made.as_str() == "made", "at {row}");
    }
    Ok(())
}

// The machine under the protocol with this edit.
fn machine(alloc: alloc::Global, directory: Directory, edit: &Edit) -> Result<Setup, Fail> {
    let own = edited(alloc, text_of(directory), edit.old, edit.new)?;
    setup(alloc, edit.text, protocol(alloc, own.as_bytes())?)
}

/// The state breaks part 1 of block 0, since the protocol is another than the one that it is held against.
pub fn is_another(rt: &impl Abort, directory: Directory, g: &Global) {
    let broken = Broken {
        block: BlockId::new(0).unwrap(),
        part: 1,
    };
    assert!(rt; verdict(directory, g) == Err(broken));
}

// Under the protocol with this edit, these parts hold of block 1 after the events.
fn breaks(
    rt: &impl Abort,
    alloc: alloc::Global,
    directory: Directory,
    edit: &Edit,
) -> Result<(), Fail> {
    let setup = machine(alloc, directory, edit)?;
    let mut g = Global::new(alloc, &setup)?;
    make_all(rt, alloc, &mut g, edit.events)?;
    is_another(rt, directory, &g);
    let held = parts_of(alloc, &g, directory, BlockId::new(1).unwrap())?;
    assert!(rt;
        held.as_str() == edit.held,
        "{} holds for {}",
        held.as_str(),
        edit.new
    );
    Ok(())
}

fn all_break(
    rt: &impl Abort,
    alloc: alloc::Global,
    directory: Directory,
    edits: &[Edit],
) -> Result<(), Fail> {
    for edit in edits {
        breaks(rt, alloc, directory, edit)?;
    }
    Ok(())
}

const STACHE_EDITS: [Edit; 6] = [
    // A cache leaves other statements to be done when its data has come.
    Edit {
        old: "Suspend(L, Cache_Wait_RO{; L})\n    WakeUp\n    SetState(Cache_RO{})",
        new: "Suspend(L, Cache_Wait_RO{; L})\n    SetState(Cache_RO{})\n    WakeUp",
        text: READER,
        events: "I 0",
        held: "34567",
    },
    // The home sends a message that caches send.
    Edit {
        old: "Send(src, DATA_RO)",
        new: "Send(src, PUT)",
        text: READER,
        events: "I 0\nD 1 0 0",
        held: "267",
    },
    // A cache asks twice.
    Edit {
        old: "Send(home, GET_RO)",
        new: "Send(home, GET_RO)\n    Send(home, GET_RO)",
        text: READER,
        events: "I 0",
        held: "2367",
    },
    // The home forgets its sharer.
    Edit {
        old: "sharers := One(src)",
        new: "sharers := Empty",
        text: READER,
        events: "I 0\nD 1 0 0",
        held: "23467",
    },
    // A cache does not install what has come.
    Edit {
        old: "Install\n    SetTag(ReadOnly)",
        new: "SetTag(ReadOnly)",
        text: READER,
        events: "I 1\nI 1\nI 0\nD 1 0 0\nD 0 1 1",
        held: "23457",
    },
    // The home defers a request that it could serve.
    Edit {
        old: "owner := src\n    SetTag(Invalid)\n    Send(src, DATA_RW)\n    SetState(Home_Excl{})",
        new: "Enqueue",
        text: WRITER,
        events: "I 0\nD 1 0 0",
        held: "23456",
    },
];

#[test]
fn each_part_breaks(rt: HostRuntime) -> Result<(), Fail> {
    let alloc = rt.alloc();
    all_break(&rt, alloc, Directory::Stache, &STACHE_EDITS)
}

const ASKED: &str = "I 0\nI 0\nD 1 0 0\nD 0 1 1\nI 0\nI 1";

const ANSWERED: &str = "I 0\nI 0\nD 1 0 0\nD 0 1 1\nI 0\nI 1\nD 0 1 1";

const SHARED: &str = "I 0\nI 0\nD 1 0 0\nD 0 1 1\nI 0\nI 1\nD 0 1 1\nD 1 0 1";

const WRITTEN: &str = "I 0\nI 0\nD 1 0 0\nD 0 1 1\nI 0\nI 1\nD 0 1 1\nI 0";

const STACHE_D_EDITS: [Edit; 5] = [
    // The home leaves other statements to be done when the owner has answered.
    Edit {
        old: "SetTag(ReadOnly)\n    WakeUp\n    SetState(Home_RO{})",
        new: "WakeUp\n    SetTag(ReadOnly)\n    SetState(Home_RO{})",
        text: COPY_KEPT,
        events: ASKED,
        held: "34567",
    },
    // The owner answers as one that gives its block back.
    Edit {
        old: "Send(src, PUT_RO)",
        new: "Send(src, PUT)",
        text: COPY_KEPT,
        events: ANSWERED,
        held: "23467",
    },
    // The owner keeps ReadWrite, and writes its copy.
    Edit {
        old: "SetTag(ReadOnly)\n    Send(src, PUT_RO)",
        new: "Send(src, PUT_RO)",
        text: COPY_KEPT,
        events: WRITTEN,
        held: "23457",
    },
    // The home forgets that the owner has a copy.
    Edit {
        old: "sharers := One(owner)",
        new: "sharers := Empty",
        text: COPY_KEPT,
        events: SHARED,
        held: "23467",
    },
    // The home keeps its stale copy.
    Edit {
        old: "On PUT_RO()\n  Begin\n    Install",
        new: "On PUT_RO()\n  Begin",
        text: COPY_KEPT,
        events: SHARED,
        held: "23457",
    },
];

#[test]
fn each_part_breaks_under_stache_d(rt: HostRuntime) -> Result<(), Fail> {
    let alloc = rt.alloc();
    all_break(&rt, alloc, Directory::StacheD, &STACHE_D_EDITS)
}

/// Three readers ask, and two of them have a copy when the request of the third has come.
const THREE_ASK: &str = "I 0
D 1 0 0
D 0 1 1
I 2
D 1 2 0
D 2 1 1
I 3
D 1 3 0";

/// How Stache_L takes a copy from one of two sharers.
const BY_X: &str = "Local x Node
    If (Count(sharers) = 2)
    Begin
      ForEach x sharers
      Begin
      End
      sharers := Without(sharers, x)
      acks := 1
      Send(x, INV)";

/// The same with a variable of another name.
const BY_Y: &str = "Local y Node
    If (Count(sharers) = 2)
    Begin
      ForEach y sharers
      Begin
      End
      sharers := Without(sharers, y)
      acks := 1
      Send(y, INV)";

const STACHE_L_EDITS: [Edit; 5] = [
    // The home lets a third sharer in.
    Edit {
        old: "Count(sharers) = 2",
        new: "Count(sharers) = 3",
        text: READERS,
        events: THREE_ASK,
        held: "23467",
    },
    // The home invalidates the copy of the sharer that it keeps.
    Edit {
        old: "Send(x, INV)",
        new: "SendAll(sharers, INV)",
        text: READERS,
        events: THREE_ASK,
        held: "23467",
    },
    // The home waits for two answers where it asked for one.
    Edit {
        old: "acks := 1",
        new: "acks := 2",
        text: READERS,
        events: THREE_ASK,
        held: "23467",
    },
    // The home leaves other statements to be done when the answer has come.
    Edit {
        old: "End\n    sharers := With(sharers, src)\n    Send(src, DATA_RO)",
        new: "End\n    Send(src, DATA_RO)\n    sharers := With(sharers, src)",
        text: READERS,
        events: THREE_ASK,
        held: "367",
    },
    // The chosen node stands in a variable of another name.
    Edit {
        old: BY_X,
        new: BY_Y,
        text: READERS,
        events: THREE_ASK,
        held: "34567",
    },
];

#[test]
fn each_part_breaks_under_stache_l(rt: HostRuntime) -> Result<(), Fail> {
    let alloc = rt.alloc();
    all_break(&rt, alloc, Directory::StacheL, &STACHE_L_EDITS)
}
