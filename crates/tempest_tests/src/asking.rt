use std::alloc::Global;
use std::process::Abort;
use std::test::Fail;
use tempest_run::{Status, tempest_plain};
use tw_io::{MemSink, MemSource};

pub const ROOM: usize = 1_048_576;

pub fn words(alloc: Global, text: &str) -> Result<Vec<String>, Fail> {
    let mut words = Vec::new(alloc);
    for word in text.split(' ') {
        if !word.is_empty() {
            words.push(String::from_str(alloc, word)?)?;
        }
    }
    Ok(words)
}

// The status of a call, and the sink as it leaves it.
fn call(alloc: Global, asked: &str, text: &str) -> Result<(Status, MemSink), Fail> {
    let words = words(alloc, asked)?;
    let mut source = MemSource::new(text.as_bytes().to_vec(alloc)?, 40, Vec::new(alloc));
    let mut sink = MemSink::new(alloc, ROOM, 16, Vec::new(alloc))?;
    let status = tempest_plain(alloc, &words, &mut source, &mut sink);
    Ok((status, sink))
}

pub fn expect(
    rt: &impl Abort,
    alloc: Global,
    asked: &str,
    text: &str,
    status: Status,
    written: &str,
) -> Result<(), Fail> {
    let (got, sink) = call(alloc, asked, text)?;
    assert_eq!(rt; sink.bytes(), written.as_bytes());
    assert_eq!(rt; got, status);
    Ok(())
}

/// The same words with an option more ask for the same status and the same bytes.
pub fn expect_same(
    rt: &impl Abort,
    alloc: Global,
    asked: &str,
    option: &str,
    text: &str,
) -> Result<(), Fail> {
    let more = format!(in alloc; "{asked} {option}")?;
    let (status, sink) = call(alloc, asked, text)?;
    let (other_status, other_sink) = call(alloc, more.as_str(), text)?;
    assert_eq!(rt; sink.bytes(), other_sink.bytes());
    assert_eq!(rt; status, other_status);
    Ok(())
}
