use std::alloc::Global;
use std::process::Abort;
use std::test::Fail;
use tempest_run::{Status, tempest_plain};
use tw_io::{MemSink, MemSource};

pub const ROOM: usize = 1_048_576;

/// One node stores a word, loads it and prints it: 93 bytes.
pub const TEXT: &str = "tempest 1
nodes 1
words 1
blocks 1
program 0
li r1 5
st r1 r0 0
ld r2 r0 0
print r2
halt
end
";

/// Its report: 170 bytes.
pub const REPORT: &str = "tempest report 1 nodes 1 words 1 blocks 1 budget 4000
print 0 5
word 0 5
register 0 1 5
register 0 2 5
node 0 halted place 4 instructions 5 handlers 0
history agrees
end
";

/// What is asked of a text, and which call of an end fails, from 1.
#[derive(Clone, Copy)]
pub struct Question<'a> {
    pub words: &'a str,
    pub text: &'a [u8],
    pub failing_read: Option<u64>,
    pub failing_write: Option<u64>,
}

pub fn words(alloc: Global, text: &str) -> Result<Vec<String>, Fail> {
    let mut words = Vec::new(alloc);
    for word in text.split(' ') {
        if !word.is_empty() {
            words.push(String::from_str(alloc, word)?)?;
        }
    }
    Ok(words)
}

fn fails(alloc: Global, call: Option<u64>) -> Result<Vec<u64>, Fail> {
    let mut fails = Vec::new(alloc);
    if let Some(call) = call {
        fails.push(call)?;
    }
    Ok(fails)
}

/// Asks over ends that move a byte at a call, and expects this status and these bytes.
pub fn expect(
    rt: &impl Abort,
    alloc: Global,
    asked: &Question,
    status: Status,
    written: &[u8],
) -> Result<(), Fail> {
    let words = words(alloc, asked.words)?;
    let mut source = MemSource::new(
        asked.text.to_vec(alloc)?,
        1,
        fails(alloc, asked.failing_read)?,
    );
    let mut sink = MemSink::new(alloc, ROOM, 1, fails(alloc, asked.failing_write)?)?;
    let got = tempest_plain(alloc, &words, &mut source, &mut sink);
    assert_eq!(rt; got, status);
    assert_eq!(rt; sink.bytes(), written);
    Ok(())
}
