use std::alloc::Global;
use std::fmt::Write;
use std::test::Fail;
use tw_lex::{LexError, Lexed, What, lines};

// How many lines there are, and each token with its place in the text.
fn shown(alloc: Global, lexed: &Lexed) -> Result<String, Fail> {
    let mut out = String::new(alloc);
    write!(out, "{}", lexed.all)?;
    for line in lexed.list.items() {
        write!(out, " {}:", line.number)?;
        for token in line.tokens.items() {
            match &token.what {
                What::Word(name) => write!(
                    out,
                    " {}",
                    std::str::from_utf8(name.bytes()).unwrap_or("?")
                )?,
                What::Number(number) => write!(out, " {number}")?,
                What::Mark(mark) => write!(out, " {mark:?}")?,
            }
            write!(out, "[{}..{}]", token.start, token.end)?;
        }
    }
    Ok(out)
}

// The lines of a short text.
fn read(alloc: Global, text: &[u8]) -> Result<Lexed, LexError> {
    if text.len() > 4096 {
        return Err(LexError::Memory);
    }
    lines(alloc, text)
}

const TEXTS: [(&[u8], &str); 18] = [
    (b"", "0"),
    (b"\n\n", "2"),
    (b"\n \t\r\n# a comment: (! 2x \x00\xC8)", "3"),
    (b"a#\xC8\x00\n", "1 1: a[0..1]"),
    (b"a\nb", "2 1: a[0..1] 2: b[2..3]"),
    (b"\r\nx\r\n\ty # z\n", "3 2: x[2..3] 3: y[6..7]"),
    (b"_ Ab_9 ab", "1 1: _[0..1] Ab_9[2..6] ab[7..9]"),
    (
        b"x:=00:y",
        "1 1: x[0..1] Becomes[1..3] 0[3..5] Colon[5..6] y[6..7]",
    ),
    (
        b"007 18446744073709551615",
        "1 1: 7[0..3] 18446744073709551615[4..24]",
    ),
    (
        b"00018446744073709551615",
        "1 1: 18446744073709551615[0..23]",
    ),
    (
        b"(){},;",
        "1 1: Open[0..1] Close[1..2] BraceOpen[2..3] BraceClose[3..4] Comma[4..5] Semicolon[5..6]",
    ),
    (
        b":+-=<&|",
        "1 1: Colon[0..1] Plus[1..2] Minus[2..3] Equal[3..4] Less[4..5] Both[5..6] Either[6..7]",
    ),
    (
        b":=<><=",
        "1 1: Becomes[0..2] Unequal[2..4] LessEqual[4..6]",
    ),
    (b"<<=", "1 1: Less[0..1] LessEqual[1..3]"),
    (b"::==", "1 1: Colon[0..1] Becomes[1..3] Equal[3..4]"),
    (
        b"< =: =",
        "1 1: Less[0..1] Equal[2..3] Colon[3..4] Equal[5..6]",
    ),
    (
        b"=<>-1",
        "1 1: Equal[0..1] Unequal[1..3] Minus[3..4] 1[4..5]",
    ),
    (
        b"aaaaaaaaaaaaaaaabbbbbbbbbbbbbbbbccccccccccccccccdddddddddddddddd",
        "1 1: aaaaaaaaaaaaaaaabbbbbbbbbbbbbbbbccccccccccccccccdddddddddddddddd[0..64]",
    ),
];

#[test]
fn texts_have_tokens(rt: HostRuntime) -> Result<(), Fail> {
    let alloc = rt.alloc();
    for (text, due) in &TEXTS {
        match read(alloc, text) {
            Ok(lexed) => assert_eq!(rt; shown(alloc, &lexed)?.as_str(), *due),
            Err(error) => assert!(rt; false, "{due} is {error:?}"),
        }
    }
    Ok(())
}

const FAULTS: [(&[u8], LexError); 19] = [
    (b"18446744073709551616", LexError::BadToken { line: 1 }),
    (b"100000000000000000000", LexError::BadToken { line: 1 }),
    (b"2x", LexError::BadToken { line: 1 }),
    (b"2_", LexError::BadToken { line: 1 }),
    (
        b"aaaaaaaaaaaaaaaabbbbbbbbbbbbbbbbccccccccccccccccdddddddddddddddde",
        LexError::BadToken { line: 1 },
    ),
    (b">", LexError::BadToken { line: 1 }),
    (b"a <=> b", LexError::BadToken { line: 1 }),
    (b"!", LexError::BadToken { line: 1 }),
    (b"a\n\n\"\n", LexError::BadToken { line: 3 }),
    (b"a.b", LexError::BadToken { line: 1 }),
    (b"~", LexError::BadToken { line: 1 }),
    (b"\x7F", LexError::NotAscii { line: 1 }),
    (b"a\n\x0B", LexError::NotAscii { line: 2 }),
    (b"a\x00", LexError::NotAscii { line: 1 }),
    (b"\n\xC8 # a comment", LexError::NotAscii { line: 2 }),
    (b"! \xC8", LexError::NotAscii { line: 1 }),
    (b"! # \xC8", LexError::BadToken { line: 1 }),
    (b"!\n\xC8", LexError::BadToken { line: 1 }),
    (b"\xC8\n!", LexError::NotAscii { line: 1 }),
];

#[test]
fn texts_have_faults(rt: HostRuntime) -> Result<(), Fail> {
    let alloc = rt.alloc();
    for (text, due) in &FAULTS {
        match read(alloc, text) {
            Ok(lexed) => assert!(rt; false, "{due:?} is {}", shown(alloc, &lexed)?),
            Err(error) => assert_eq!(rt; error, *due),
        }
    }
    Ok(())
}
