use std::alloc::Global;
use std::test::Fail;
use teapot_check::{CheckError, check};
use teapot_parse::{parse, read_trees_are_given, texts_have_text_lines};
use teapot_tree::Rule;
use tw_base::Memory;
use tw_lex::{LexError, lines};

/// The first break of the protocol that a text is, None where it is accepted.
pub fn checked(alloc: Global, text: &[u8]) -> Result<Option<(u32, Rule)>, Fail> {
    if text.len() > 1 << 20 {
        return Err(LexError::Memory)?;
    }
    texts_have_text_lines();
    read_trees_are_given();
    let found = lines(alloc, text)?;
    let protocol = parse(alloc, found.list, found.all)?;
    match check(alloc, protocol) {
        Ok(_) => Ok(None),
        Err(CheckError::Broken { line, rule }) => Ok(Some((line, rule))),
        Err(CheckError::Memory) => Err(Memory)?,
    }
}
