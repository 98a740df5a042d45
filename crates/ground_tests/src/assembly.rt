ghost use Rattle.std.specs.Prelude.{◌+◌, ◌^◌, ◌<◌, length};

use mini_asm::{Flat, Program, ProgramError, parse_program};
use std::alloc::Global;
use std::test::Fail;
use tw_base::{Act, NodeId, Shape, Trap};
use tw_lex::lines;

/// What stands for a program's end among its printed words.
const HALTED: u64 = 1_000_000;

const BAD_ADDRESS: u64 = 1_000_001;

const FELL_OFF: u64 = 1_000_002;

const GOES_ON: u64 = 1_000_003;

fn parsed(alloc: Global, text: &str, version: u8) -> Result<Result<Program, ProgramError>, Fail> {
    let bytes = text.as_bytes();
    if bytes.len() > 1_048_576 {
        return Err("too long".into());
    }
    let lexed = lines(alloc, bytes)?;
    Ok(parse_program(alloc, lexed.list.items(), version))
}

/// The words that a program prints on one node, and then how it ended. Word 1 starts at 7.
fn printed(alloc: Global, text: &str) -> Result<Vec<u64>, Fail> {
    let program = parsed(alloc, text, 2)??;
    let shape = Shape::new(1, 4, 2, 1000).ok_or("shape")?;
    let node = NodeId::new(0).ok_or("node")?;
    let mut programs = Vec::new(alloc);
    programs.push(program)?;
    let mut flat = Flat::new(alloc, shape, &[(1, 7)], programs.as_slice())?;
    let mut words = Vec::new(alloc);
    for _ in 0..100 {
        if !flat.running(node) {
            return Ok(words);
        }
        match flat.step(node) {
            Act::Print { value } => words.push(value)?,
            Act::Halt => words.push(HALTED)?,
            Act::Trapped {
                why: Trap::BadAddress,
            } => words.push(BAD_ADDRESS)?,
            Act::Trapped { why: Trap::FellOff } => words.push(FELL_OFF)?,
            _ => {}
        }
    }
    words.push(GOES_ON)?;
    Ok(words)
}

#[test]
fn programs_print(rt: HostRuntime) -> Result<(), Fail> {
    let max = u64::MAX;
    let rows: [(&str, &[u64]); 22] = [
        ("", &[FELL_OFF]),
        ("halt", &[HALTED]),
        ("li r1 5\nprint r1\nhalt", &[5, HALTED]),
        ("li r1 18446744073709551615\nprint r1", &[max, FELL_OFF]),
        ("li r0 5\nprint r0\nhalt", &[0, HALTED]),
        ("li r15 3\nmov r2 r15\nprint r2\nhalt", &[3, HALTED]),
        (
            "li r1 18446744073709551615\nli r2 3\nadd r3 r1 r2\nprint r3\nhalt",
            &[2, HALTED],
        ),
        (
            "li r1 2\nli r2 3\nsub r3 r1 r2\nprint r3\nsub r4 r2 r1\nprint r4\nhalt",
            &[max, 1, HALTED],
        ),
        (
            "li r1 12\nli r2 10\nand r3 r1 r2\nprint r3\nor r3 r1 r2\nprint r3\nxor r3 r1 r2\nprint r3\nhalt",
            &[8, 14, 6, HALTED],
        ),
        (
            "ld r1 r0 1\nprint r1\nld r1 r0 7\nprint r1\nhalt",
            &[7, 0, HALTED],
        ),
        (
            "li r1 9\nst r1 r0 3\nld r2 r0 3\nprint r2\nhalt",
            &[9, HALTED],
        ),
        ("ld r1 r0 8\nhalt", &[BAD_ADDRESS]),
        ("st r1 r0 18446744073709551615", &[BAD_ADDRESS]),
        (
            "li r1 18446744073709551615\nld r2 r1 2\nprint r2\nhalt",
            &[7, HALTED],
        ),
        (
            "li r1 1\nli r2 18446744073709551615\nblt r1 r2 a\nprint r1\na: \nblt r2 r1 b\nprint r2\nb:\nhalt",
            &[max, HALTED],
        ),
        (
            "li r1 3\nl:\nprint r1\nli r2 1\nsub r1 r1 r2\nbne r1 r0 l\nhalt",
            &[3, 2, 1, HALTED],
        ),
        ("jmp e\nprint r1\ne:", &[FELL_OFF]),
        ("l:\njmp l", &[GOES_ON]),
        (
            "beq r1 r2 r16\nhalt\nr16:\nprint r0\nend:\nhalt",
            &[0, HALTED],
        ),
        (
            "li r1 1\nbeq r1 r0 a\nprint r1\na:\nblt r1 r1 b\nprint r1\nb:\nhalt",
            &[1, 1, HALTED],
        ),
        (
            "li r1 5\nfaa r2 r1 r0 1\nprint r2\nld r3 r0 1\nprint r3\nhalt",
            &[7, 12, HALTED],
        ),
        (
            "li r1 1\nfaa r1 r1 r1 0\nprint r1\nld r2 r0 1\nprint r2\nfaa r3 r3 r0 8",
            &[7, 8, BAD_ADDRESS],
        ),
    ];
    for (text, expected) in rows {
        let words = printed(rt.alloc(), text)?;
        assert_eq!(rt; words.as_slice(), expected, "at {text}");
    }
    Ok(())
}

#[test]
fn faults_are_found(rt: HostRuntime) -> Result<(), Fail> {
    let bad = |line: u32| ProgramError::BadLine { line };
    let twice = |line: u32| ProgramError::LabelTwice { line };
    let none = |line: u32| ProgramError::NoLabel { line };
    let rows = [
        ("nop", 1, bad(1)),
        ("halt\n\n# only this\nhalt r1", 1, bad(4)),
        ("add r1 r2", 1, bad(1)),
        ("add r1 r2 r16", 1, bad(1)),
        ("add r1 r2 3", 1, bad(1)),
        ("li r1 r2", 1, bad(1)),
        ("li r01 2", 1, bad(1)),
        ("r3:", 1, bad(1)),
        ("a: halt", 1, bad(1)),
        ("7:", 1, bad(1)),
        ("jmp r3\nr3x:", 1, bad(1)),
        ("jmp 3", 1, bad(1)),
        ("faa r1 r2 r3 0", 1, bad(1)),
        ("faa r1 r2 r3", 2, bad(1)),
        ("a:\na:\njmp b\nnop", 2, bad(4)),
        ("jmp b\na:\nhalt\na:\na:", 2, twice(4)),
        ("a:\nhalt\njmp b\njmp c", 2, none(3)),
        ("jmp r16", 2, none(1)),
    ];
    for (text, version, expected) in rows {
        let found = parsed(rt.alloc(), text, version)?;
        assert_eq!(rt; found.err().ok_or("no fault")?, expected, "at {text}");
    }
    Ok(())
}

/// As many instructions, and a label that stands twice behind them.
fn long_text(alloc: Global, count: usize) -> Result<String, Fail> {
    let mut text = String::new(alloc);
    for _ in 0..count {
        text.push_str("halt\n")?;
    }
    text.push_str("a:\na:\n")?;
    Ok(text)
}

#[test]
fn a_program_has_4096_instructions(rt: HostRuntime) -> Result<(), Fail> {
    let alloc = rt.alloc();
    let fits = parsed(alloc, long_text(alloc, 4096)?.as_str(), 1)?;
    assert_eq!(rt;
        fits.err().ok_or("no fault")?,
        ProgramError::LabelTwice { line: 4098 }
    );
    let long = parsed(alloc, long_text(alloc, 4098)?.as_str(), 1)?;
    assert_eq!(rt;
        long.err().ok_or("no fault")?,
        ProgramError::TooLong { line: 4097 }
    );
    Ok(())
}
