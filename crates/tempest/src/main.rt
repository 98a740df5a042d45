//! Reads an input from standard input, does what the words ask for, and writes the answer to standard output.
#![tactic(auto)]

use node_runtime::OpenGate;
use std::io::ErrorKind;
use std::process::ExitCode;
use std::{env, io};
use tempest_run::{Status, tempest};
use tw_io::{StdSink, StdSource};

// The words after the program's name, or no words where one of them is no text. None for want of memory.
fn words(rt: &HostRuntime) -> Option<Vec<String>> {
    let mut words = Vec::new(rt.alloc());
    let given = match env::args(rt) {
        Ok(given) => given,
        Err(error) if error.kind() == ErrorKind::OutOfMemory => return None,
        Err(_) => return Some(words),
    };
    for word in given.skip(1) {
        words.push(word).ok()?;
    }
    Some(words)
}

fn main(rt: HostRuntime) -> ExitCode {
    let alloc = rt.alloc();
    let Some(words) = words(&rt) else {
        return ExitCode::from(Status::Memory.code());
    };
    let mut source = StdSource::new(rt.reader());
    let mut sink = StdSink::new(io::writer(&rt));
    let status = tempest(&rt, alloc, &words, &mut source, &mut sink, &OpenGate);
    ExitCode::from(status.code())
}
