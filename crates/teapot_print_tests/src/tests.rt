use crate::{refusals, spellings};
use std::alloc::Global;
use std::process::Abort;
use std::test::Fail;
use teapot_parse::{ParseError, parse};
use teapot_print::print;
use teapot_samples::{DEAF, DEEP, DOUBLE, DROP, PING_PONG, STACHE, WALK};
use teapot_tree::Protocol;
use tw_lex::{LexError, lines, number_of};

const HEADS: [&[u8]; 2] = [b"Protocol P\n", b"Protocol P 2\n"];

// What the lines of a text give, where it has tokens and is not long.
fn read(alloc: Global, text: &[u8]) -> Result<Result<Protocol, ParseError>, LexError> {
    if text.len() > 1 << 20 {
        return Err(LexError::Memory);
    }
    let lexed = lines(alloc, text)?;
    Ok(parse(alloc, lexed.list, lexed.all.saturating_add(1)))
}

// The canonical text of the protocol that a text is.
fn reprinted(alloc: Global, text: &[u8]) -> Result<Vec<u8>, Fail> {
    let protocol = read(alloc, text)??;
    Ok(print(alloc, &protocol)?)
}

// The text with blanks, comments and blank lines wherever they may stand, and lines that end as elsewhere.
fn disordered(alloc: Global, text: &[u8]) -> Result<Vec<u8>, Fail> {
    let mut out = Vec::new(alloc);
    for byte in text {
        match byte {
            b'\n' => out.extend_from_slice(b" \t# End (\xC8\r\n\r\n\n\t")?,
            b' ' => out.extend_from_slice(b"\t \r")?,
            b'(' | b')' | b'{' | b'}' | b',' | b';' => {
                out.extend_from_slice(b"  ")?;
                out.push(*byte)?;
                out.push(b'\t')?;
            }
            _ => out.push(*byte)?,
        }
    }
    Ok(out)
}

#[test]
fn protocols_are_printed_as_they_stand(rt: HostRuntime) -> Result<(), Fail> {
    let alloc = rt.alloc();
    for text in [STACHE, DEAF, PING_PONG, DOUBLE, DEEP, DROP, WALK] {
        let text = text.as_bytes();
        let again = reprinted(alloc, text)?;
        assert_eq!(rt; again.as_slice(), text);
        let other = disordered(alloc, text)?;
        let again = reprinted(alloc, &other)?;
        assert_eq!(rt; again.as_slice(), text);
    }
    Ok(())
}

// Adds a piece, in which `/` ends a line.
fn put(text: &mut Vec<u8>, piece: &str) -> Result<(), Fail> {
    for byte in piece.as_bytes() {
        text.push(if *byte == b'/' { b'\n' } else { *byte })?;
    }
    Ok(())
}

// A first line, and a piece between two others.
fn between(
    alloc: Global,
    head: &[u8],
    before: &str,
    piece: &str,
    behind: &str,
) -> Result<Vec<u8>, Fail> {
    let mut text = Vec::new(alloc);
    text.extend_from_slice(head)?;
    put(&mut text, before)?;
    put(&mut text, piece)?;
    put(&mut text, behind)?;
    Ok(text)
}

// Whether the first spelling of each row, with these around it, is printed as the second.
fn are_reprinted(
    rt: &impl Abort,
    alloc: Global,
    head: &[u8],
    table: &str,
    before: &str,
    behind: &str,
) -> Result<(), Fail> {
    for row in table.split('\n') {
        let (text, due) = row.split_once(" -> ").unwrap_or(("", "?"));
        let text = between(alloc, head, before, text, behind)?;
        let due = between(alloc, head, before, due, behind)?;
        assert_eq!(rt; reprinted(alloc, &text)?.as_slice(), due.as_slice());
    }
    Ok(())
}

const BEFORE: &str = "State S{}/Begin/  On M()/  Begin/    ";

const BEHIND: &str = "/  End/End/";

#[test]
fn lines_are_printed_in_one_spelling(rt: HostRuntime) -> Result<(), Fail> {
    let alloc = rt.alloc();
    are_reprinted(&rt, alloc, b"", spellings::TEXTS, "", "")?;
    for head in HEADS {
        are_reprinted(&rt, alloc, head, spellings::DECLARATIONS, "", "")?;
        are_reprinted(&rt, alloc, head, spellings::STATEMENTS, BEFORE, BEHIND)?;
    }
    are_reprinted(&rt, alloc, HEADS[1], spellings::LOOPS, BEFORE, BEHIND)
}

// What is said of a text: that it is read, or its refusal.
fn answered(alloc: Global, text: &[u8]) -> Result<String, Fail> {
    match read(alloc, text)? {
        Ok(_) => Ok(String::from_str(alloc, "read")?),
        Err(ParseError::BadLine { line }) => Ok(format!(in alloc; "BadLine {line}")?),
        Err(ParseError::BadNest { line }) => Ok(format!(in alloc; "BadNest {line}")?),
        Err(ParseError::TooMany { what, line }) => {
            Ok(format!(in alloc; "TooMany {what:?} {line}")?)
        }
        Err(ParseError::Memory) => Ok(String::from_str(alloc, "Memory")?),
    }
}

// The text that a row stands for, behind these lines.
fn unfolded(alloc: Global, head: &[u8], row: &str) -> Result<Vec<u8>, Fail> {
    let mut text = Vec::new(alloc);
    text.extend_from_slice(head)?;
    for piece in row.split('~') {
        match piece.split_once('*') {
            Some((times, line)) => {
                for _ in 0..number_of(times.as_bytes()).unwrap_or(0) {
                    put(&mut text, line)?;
                }
            }
            None => put(&mut text, piece)?,
        }
    }
    Ok(text)
}

// Whether each row of a table is answered as it says.
fn are_answered(rt: &impl Abort, alloc: Global, head: &[u8], table: &str) -> Result<(), Fail> {
    for row in table.split('\n') {
        let (text, due) = row.split_once(" -> ").unwrap_or(("", ""));
        let text = unfolded(alloc, head, text)?;
        assert_eq!(rt; answered(alloc, &text)?.as_str(), due);
    }
    Ok(())
}

// Whether each line of a table, with these around it, is of no form.
fn are_no_lines(
    rt: &impl Abort,
    alloc: Global,
    head: &[u8],
    table: &str,
    before: &str,
    behind: &str,
) -> Result<(), Fail> {
    for line in table.split('\n') {
        let text = between(alloc, head, before, line, behind)?;
        assert_eq!(rt; answered(alloc, &text)?.as_str(), "BadLine 2");
    }
    Ok(())
}

#[test]
fn lines_are_refused(rt: HostRuntime) -> Result<(), Fail> {
    let alloc = rt.alloc();
    are_answered(&rt, alloc, b"", refusals::TEXTS)?;
    for head in HEADS {
        are_no_lines(&rt, alloc, head, refusals::BAD_LINES, "", "")?;
        are_no_lines(&rt, alloc, head, refusals::RESERVED, "Info ", " Int")?;
    }
    Ok(())
}

#[test]
fn nesting_and_limits_are_kept(rt: HostRuntime) -> Result<(), Fail> {
    let alloc = rt.alloc();
    for head in HEADS {
        are_answered(&rt, alloc, head, refusals::ANSWERS)?;
    }
    are_answered(&rt, alloc, HEADS[1], refusals::ANSWERS_IN_TWO)
}
