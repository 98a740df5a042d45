use crate::calls::{Question, REPORT, TEXT, expect};
use std::alloc::Global;
use std::test::Fail;
use tempest_run::Status;

/// Where the text is cut behind so many bytes, from the first number to the second, the line at which it is refused: the one that
/// is cut, or behind a whole line the one that is missing.
const CUTS: [(usize, usize, u32); 12] = [
    (0, 8, 1),
    (9, 16, 2),
    (17, 24, 3),
    (25, 33, 4),
    (36, 43, 5),
    (44, 45, 6),
    (46, 53, 7),
    (54, 64, 8),
    (65, 75, 9),
    (76, 84, 10),
    (85, 89, 11),
    (90, 91, 12),
];

/// The report of the header alone: a node without a program halts at once.
const HEADER_REPORT: &str = "tempest report 1 nodes 1 words 1 blocks 1 budget 4000
node 0 halted place 0 instructions 1 handlers 0
history agrees
end
";

// The line at which the first so many bytes are refused.
fn refused_line(length: usize) -> Option<u32> {
    for (first, last, line) in CUTS {
        if first <= length && length <= last {
            return Some(line);
        }
    }
    None
}

// What is due for the first so many bytes.
fn due(alloc: Global, length: usize) -> Result<(Status, String), Fail> {
    if let Some(line) = refused_line(length) {
        let refusal = format!(in alloc; "refused line {line} BadLine\n")?;
        return Ok((Status::Refused, refusal));
    }
    let report = if length <= 35 { HEADER_REPORT } else { REPORT };
    Ok((Status::Done, String::from_str(alloc, report)?))
}

#[test]
fn each_prefix_is_answered(rt: HostRuntime) -> Result<(), Fail> {
    let alloc = rt.alloc();
    for length in 0..=93usize {
        let asked = Question {
            words: "serial 0",
            text: TEXT.as_bytes().get(..length).ok_or("a shorter text")?,
            failing_read: None,
            failing_write: None,
        };
        let (status, written) = due(alloc, length)?;
        expect(&rt, alloc, &asked, status, written.as_bytes())?;
    }
    Ok(())
}
