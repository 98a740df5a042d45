ghost use Rattle.std.specs.Prelude.{◌^◌, ◌<◌, length};
ghost use Rattle.compiled_meaning.specs.Whole.{IsCode};

use crate::setups::{code, setup};
use crate::telling::are_all;
use dsm_model::settle;
use dsm_runs::Setup;
use handler_code::Code;
use journal::{Final, finals_of, words_of};
use machine_texts::SHORT_READER;
use std::alloc::Global;
use std::process::Abort;
use std::test::Fail;
use still_nodes::{Gathered, Still};
use teapot_samples::{DEAF, DEEP, DOUBLE, PING_PONG, STACHE, WALK};
use tw_base::{Act, Entry, Listed, Memory};

/// Four nodes, each of which writes and reads words of the others.
const BUSY: &str = "tempest 2
nodes 4
words 2
blocks 5
budget 40
init 3 5
init 8 2
program 0
li r1 3
again:
faa r2 r1 r0 2
st r2 r0 5
ld r3 r0 8
add r4 r4 r3
ld r5 r0 6
li r6 1
sub r1 r1 r6
bne r1 r0 again
print r4
halt
end
program 1
li r1 7
st r1 r0 0
ld r2 r0 2
ld r3 r0 7
faa r4 r1 r0 2
ld r5 r0 9
print r5
halt
end
program 2
ld r1 r0 3
st r1 r0 1
ld r2 r0 8
st r2 r0 9
faa r3 r1 r0 6
ld r4 r0 0
print r4
halt
end
program 3
li r1 2
again:
ld r2 r0 4
faa r3 r1 r0 2
st r3 r0 6
ld r4 r0 0
li r6 1
sub r1 r1 r6
bne r1 r0 again
ld r5 r0 3
halt
end
";

/// Four nodes read the same words, in another order each, and write what they have read.
const READERS: &str = "tempest 1
nodes 4
words 1
blocks 4
budget 30
init 0 6
init 3 1
program 0
ld r1 r0 1
ld r2 r0 2
ld r3 r0 3
st r2 r0 1
ld r4 r0 0
halt
end
program 1
ld r1 r0 2
ld r2 r0 3
ld r3 r0 0
st r3 r0 2
halt
end
program 2
ld r1 r0 3
ld r2 r0 0
st r2 r0 3
ld r3 r0 1
halt
end
program 3
ld r1 r0 2
ld r2 r0 1
ld r3 r0 0
st r1 r0 0
halt
end
";

/// Three nodes read words of each other, and soon have no budget left.
const BRIEF: &str = "tempest 1
nodes 3
words 1
blocks 3
budget 3
program 0
ld r1 r0 1
halt
end
program 1
ld r1 r0 2
ld r2 r0 0
halt
end
program 2
li r1 4
st r1 r0 2
ld r2 r0 1
halt
end
";

fn same_final(ours: &Final, theirs: &Final) -> bool {
    ours.outcome == theirs.outcome
        && ours.cpu == theirs.cpu
        && ours.instructions == theirs.instructions
        && ours.handled == theirs.handled
}

/// Whether nodes ended alike, but for the counts of what compiled handlers did.
fn same_finals(ours: &[Final], theirs: &[Final]) -> bool {
    for (k, ended) in ours.iter().enumerate() {
        match theirs.get(k) {
            Some(other) if same_final(ended, other) => {}
            _ => return false,
        }
    }
    ours.len() == theirs.len()
}

/// What nodes did in some runs.
#[derive(Clone, Copy)]
struct Seen {
    suspended: bool,
    deferred: bool,
}

/// Whether a handler suspended on one of these nodes.
fn has_suspended(finals: &[Final]) -> bool {
    for ended in finals {
        if ended.records > 0 {
            return true;
        }
    }
    false
}

/// Whether a deferred message was handled.
fn has_redelivered(entries: &[Entry]) -> bool {
    for entry in entries {
        if let Act::Redelivered { .. } = entry.act {
            return true;
        }
    }
    false
}

/// What nodes did, beside what was seen before.
fn seen_in(gathered: &Gathered, before: Seen) -> Seen {
    Seen {
        suspended: before.suspended || has_suspended(gathered.finals.items()),
        deferred: before.deferred || has_redelivered(gathered.taken.items()),
    }
}

/// What the nodes of the model do and leave.
#[derive(Drop)]
struct Modelled {
    entries: Listed<Entry>,
    finals: Listed<Final>,
    words: Listed<u64>,
}

/// What the nodes of the model do, by the serial schedule of a stride.
fn on_the_model(alloc: Global, setup: &Setup, stride: u32) -> Result<Modelled, Fail> {
    let mut g = dsm_model::Global::new(alloc, setup)?;
    let entries = settle(alloc, &mut g, stride)?;
    let finals = finals_of(alloc, &g)?;
    let words = words_of(alloc, &g)?;
    Ok(Modelled {
        entries,
        finals,
        words,
    })
}

/// What the nodes on compiled handlers do, by the serial schedule of a stride.
fn compiled(alloc: Global, setup: &Setup, code: &Code, stride: u32) -> Result<Gathered, Memory>
    requires code { IsCode setup.now.protocol code.now }
    requires short { length code.now.ops < 2 ^ 22 }
{
    let mut still = Still::new(alloc, setup, code)?;
    still.settle(alloc, stride)?;
    still.gather(alloc)
}

/// Whether both did the same events, and left the same.
fn are_the_same(gathered: &Gathered, model: &Modelled) -> bool {
    gathered.taken.items() == model.entries.items()
        && gathered.words.items() == model.words.items()
        && same_finals(gathered.finals.items(), model.finals.items())
}

/// The nodes on compiled handlers do what those of the model do, by the serial schedule of a stride.
fn run(
    rt: &impl Abort,
    alloc: Global,
    setup: &Setup,
    code: &Code,
    stride: u32,
) -> Result<Gathered, Fail>
    requires code { IsCode setup.now.protocol code.now }
    requires short { length code.now.ops < 2 ^ 22 }
{
    let model = on_the_model(alloc, setup, stride)?;
    let gathered = compiled(alloc, setup, code, stride)?;
    assert!(rt; are_all(&gathered), "stride {stride}");
    assert!(rt; are_the_same(&gathered, &model), "stride {stride}");
    Ok(gathered)
}

/// The same of each of nine strides, and what was seen then.
fn runs(
    rt: &impl Abort,
    alloc: Global,
    machine: &str,
    protocol: &str,
    before: Seen,
) -> Result<Seen, Fail> {
    let setup = setup(alloc, machine, protocol)?;
    let code = code(alloc, &setup)?;
    let mut seen = before;
    for stride in STRIDES {
        let gathered = run(rt, alloc, &setup, &code, stride)?;
        seen = seen_in(&gathered, seen);
    }
    Ok(seen)
}

const STRIDES: [u32; 9] = [0, 1, 2, 3, 5, 7, 13, 100, u32::MAX];

/// A protocol, two machines, and whether in some run of them handlers suspend, and deferred messages are handled. Machines
/// other than the first two have little budget, where two nodes answer each other without end.
struct Case {
    name: &'static str,
    protocol: &'static str,
    first: &'static str,
    second: &'static str,
    suspended: bool,
    deferred: bool,
}

static CASES: [Case; 6] = [
    Case {
        name: "Deaf",
        protocol: DEAF,
        first: BUSY,
        second: READERS,
        suspended: false,
        deferred: false,
    },
    Case {
        name: "Ping_Pong",
        protocol: PING_PONG,
        first: BRIEF,
        second: SHORT_READER,
        suspended: false,
        deferred: false,
    },
    Case {
        name: "Double",
        protocol: DOUBLE,
        first: BUSY,
        second: READERS,
        suspended: false,
        deferred: false,
    },
    Case {
        name: "Deep",
        protocol: DEEP,
        first: BUSY,
        second: READERS,
        suspended: true,
        deferred: false,
    },
    Case {
        name: "Walk",
        protocol: WALK,
        first: BUSY,
        second: READERS,
        suspended: true,
        deferred: true,
    },
    Case {
        name: "Stache",
        protocol: STACHE,
        first: BUSY,
        second: READERS,
        suspended: true,
        deferred: true,
    },
];

#[test]
fn machines_run_as_on_the_model(rt: HostRuntime) -> Result<(), Fail> {
    for case in &CASES {
        let nothing = Seen {
            suspended: false,
            deferred: false,
        };
        let seen = runs(&rt, rt.alloc(), case.first, case.protocol, nothing)?;
        let seen = runs(&rt, rt.alloc(), case.second, case.protocol, seen)?;
        assert!(rt;
            seen.suspended == case.suspended,
            "suspended under {}",
            case.name
        );
        assert!(rt;
            seen.deferred == case.deferred,
            "deferred under {}",
            case.name
        );
    }
    Ok(())
}
