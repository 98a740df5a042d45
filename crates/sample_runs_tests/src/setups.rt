use dsm_model::Setup;
use sample_runs::sample_setup;
use std::alloc::Global;
use std::process::Abort;
use std::test::Fail;
use teapot_tree::same;
use tempest_run::read_input;

/// Samples: the number, the rounds, and what each of the four nodes adds, all worked out by hand.
const SAMPLES: &str = "0 20 1 2 3 4
5 25 6 17 28 39
12 32 13 38 63 88
13 20 14 41 68 95
96 25 97 96 95 94
97 26 1 2 3 4
1000 32 31 92 56 20
4294967295 28 35 7 76 48";

fn add_program(text: &mut String, node: u8, rounds: &str, increment: &str) -> Result<(), Fail> {
    write!(text, "program {node}\nli r1 {rounds}\nli r2 {increment}\n")?;
    text.push_str("li r4 64\nli r6 4\nli r7 1\n")?;
    write!(text, "outer:\nli r3 {node}\n")?;
    text.push_str("inner:\nld r5 r3 0\nadd r5 r5 r2\nst r5 r3 0\nadd r3 r3 r6\nblt r3 r4 inner\n")?;
    text.push_str("sub r1 r1 r7\nbne r1 r0 outer\n")?;
    write!(text, "ld r8 r0 {node}\nprint r8\nhalt\nend\n")?;
    Ok(())
}

// The number of a row, and the text that spells its sample.
fn sample_text(alloc: Global, row: &str) -> Result<(u32, String), Fail> {
    let mut words = row.split(' ');
    let number = words.next().ok_or("no number")?.parse::<u32>()?;
    let rounds = words.next().ok_or("no rounds")?;
    let mut text = String::from_str(alloc, "tempest 1\nnodes 4\nwords 4\nblocks 16\n")?;
    for node in 0..4u8 {
        let increment = words.next().ok_or("no increment")?;
        add_program(&mut text, node, rounds, increment)?;
    }
    Ok((number, text))
}

fn setup_of(alloc: Global, text: &str) -> Result<Setup, Fail> {
    if text.len() > 10_000 {
        return Err(Fail::new("a text that is too long"));
    }
    match read_input(alloc, text.as_bytes()) {
        Ok(setup) => Ok(setup),
        Err(_) => Err(Fail::new("a text that is refused")),
    }
}

fn expect_same(rt: &impl Abort, one: &Setup, other: &Setup) {
    assert_eq!(rt; one.version(), other.version());
    assert_eq!(rt; one.shape(), other.shape());
    assert_eq!(rt; one.init(), other.init());
    assert_eq!(rt; one.programs().len(), other.programs().len());
    for (program, due) in one.programs().iter().zip(other.programs()) {
        assert_eq!(rt; program.instrs(), due.instrs());
    }
    assert!(rt; same(one.protocol().protocol(), other.protocol().protocol()));
}

#[test]
fn samples_are_their_texts(rt: HostRuntime) -> Result<(), Fail> {
    let alloc = rt.alloc();
    for row in SAMPLES.lines() {
        let (number, text) = sample_text(alloc, row)?;
        let due = setup_of(alloc, text.as_str())?;
        expect_same(&rt, &sample_setup(alloc, number)?, &due);
    }
    Ok(())
}
