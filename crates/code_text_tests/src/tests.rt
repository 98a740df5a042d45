use crate::tables::{ALL, ALL_CODE, DEAF_CODE, WALK_CODE};
use code_text::code_text;
use std::alloc::Global;
use std::test::Fail;
use suspend_split::split;
use teapot_check::check;
use teapot_parse::{parse, read_trees_are_given, texts_have_text_lines};
use teapot_samples::{DEAF, WALK};
use teapot_tree::Checked;
use tw_base::Memory;
use tw_lex::{LexError, lines};

// The protocol of a text that is accepted.
fn protocol(alloc: Global, text: &[u8]) -> Result<Checked, Fail> {
    if text.len() > 1 << 20 {
        return Err(LexError::Memory)?;
    }
    texts_have_text_lines();
    read_trees_are_given();
    let found = lines(alloc, text)?;
    let protocol = parse(alloc, found.list, found.all)?;
    match check(alloc, protocol) {
        Ok(checked) => Ok(checked),
        Err(_) => Err(Memory)?,
    }
}

// The text of the code of the protocol that a text is.
fn coded(alloc: Global, text: &str) -> Result<Vec<u8>, Fail> {
    let protocol = protocol(alloc, text.as_bytes())?;
    let code = split(alloc, &protocol)?;
    Ok(code_text(alloc, &protocol, &code)?)
}

#[test]
fn a_handler_is_ops(rt: HostRuntime) -> Result<(), Fail> {
    assert_eq!(rt; coded(rt.alloc(), DEAF)?.as_slice(), DEAF_CODE.as_bytes());
    Ok(())
}

#[test]
fn a_loop_is_left_and_taken_up(rt: HostRuntime) -> Result<(), Fail> {
    assert_eq!(rt; coded(rt.alloc(), WALK)?.as_slice(), WALK_CODE.as_bytes());
    Ok(())
}

#[test]
fn each_statement_has_its_ops(rt: HostRuntime) -> Result<(), Fail> {
    assert_eq!(rt; coded(rt.alloc(), ALL)?.as_slice(), ALL_CODE.as_bytes());
    Ok(())
}
