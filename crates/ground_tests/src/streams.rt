use std::alloc::{AllocError, Global};
use std::test::Fail;
use tw_io::{
    Failed, MemSink, MemSource, ReadError, StdSink, StdSource, read_all, write_all_counted,
};

const TEXT: &[u8] = b"twenty-one bytes long";

/// What reading the text answers, and what a second reading finds after it.
struct Reading {
    piece: usize,
    failing_call: u64,
    max: u32,
    answer: Result<usize, ReadError>,
    rest: usize,
}

const READINGS: [Reading; 9] = [
    Reading {
        piece: 1,
        failing_call: 0,
        max: 21,
        answer: Ok(21),
        rest: 0,
    },
    Reading {
        piece: 16,
        failing_call: 0,
        max: 21,
        answer: Ok(21),
        rest: 0,
    },
    Reading {
        piece: 40,
        failing_call: 0,
        max: 1_048_576,
        answer: Ok(21),
        rest: 0,
    },
    Reading {
        piece: 16,
        failing_call: 9,
        max: 21,
        answer: Ok(21),
        rest: 0,
    },
    Reading {
        piece: 1,
        failing_call: 0,
        max: 20,
        answer: Err(ReadError::TooLong),
        rest: 0,
    },
    Reading {
        piece: 16,
        failing_call: 0,
        max: 15,
        answer: Err(ReadError::TooLong),
        rest: 5,
    },
    Reading {
        piece: 16,
        failing_call: 1,
        max: 21,
        answer: Err(ReadError::Fault),
        rest: 21,
    },
    Reading {
        piece: 16,
        failing_call: 2,
        max: 21,
        answer: Err(ReadError::Fault),
        rest: 5,
    },
    Reading {
        piece: 1,
        failing_call: 22,
        max: 21,
        answer: Err(ReadError::Fault),
        rest: 0,
    },
];

fn calls(alloc: Global, failing: u64) -> Result<Vec<u64>, AllocError> {
    let mut calls = Vec::new(alloc);
    if failing > 0 {
        calls.push(failing)?;
    }
    Ok(calls)
}

#[test]
fn a_text_is_read(rt: HostRuntime) -> Result<(), Fail> {
    let alloc = rt.alloc();
    for row in &READINGS {
        let fails = calls(alloc, row.failing_call)?;
        let mut source = MemSource::new(TEXT.to_vec(alloc)?, row.piece, fails);
        let (piece, call, max) = (row.piece, row.failing_call, row.max);
        match (read_all(alloc, &mut source, max), row.answer) {
            (Ok(bytes), Ok(count)) => {
                assert_eq!(rt; bytes.len(), count, "piece {piece}, call {call}, max {max}");
                assert_eq!(rt; bytes.as_slice(), TEXT);
            }
            (Err(error), Err(due)) => assert_eq!(rt;
                error,
                due,
                "piece {piece}, call {call}, max {max}"
            ),
            _ => assert!(rt; false, "piece {piece}, call {call}, max {max}"),
        }
        match read_all(alloc, &mut source, max) {
            Ok(bytes) => {
                assert_eq!(rt; bytes.len(), row.rest);
                assert!(rt;
                    TEXT.ends_with(&bytes),
                    "piece {piece}, call {call}, max {max}"
                );
            }
            Err(_) => assert!(rt; false, "piece {piece}, call {call}, max {max}"),
        }
    }
    Ok(())
}

/// What writing the text answers, and how many bytes were written.
struct Writing {
    room: usize,
    piece: usize,
    failing_call: u64,
    answer: Result<(), Failed>,
    written: usize,
}

const WRITINGS: [Writing; 7] = [
    Writing {
        room: 1_048_576,
        piece: 1,
        failing_call: 0,
        answer: Ok(()),
        written: 21,
    },
    Writing {
        room: 1_048_576,
        piece: 16,
        failing_call: 0,
        answer: Ok(()),
        written: 21,
    },
    Writing {
        room: 21,
        piece: 40,
        failing_call: 2,
        answer: Ok(()),
        written: 21,
    },
    Writing {
        room: 20,
        piece: 40,
        failing_call: 0,
        answer: Err(Failed),
        written: 20,
    },
    Writing {
        room: 0,
        piece: 40,
        failing_call: 0,
        answer: Err(Failed),
        written: 0,
    },
    Writing {
        room: 1_048_576,
        piece: 16,
        failing_call: 2,
        answer: Err(Failed),
        written: 16,
    },
    Writing {
        room: 1_048_576,
        piece: 1,
        failing_call: 1,
        answer: Err(Failed),
        written: 0,
    },
];

#[test]
fn a_text_is_written(rt: HostRuntime) -> Result<(), Fail> {
    let alloc = rt.alloc();
    for row in &WRITINGS {
        let fails = calls(alloc, row.failing_call)?;
        let mut sink = MemSink::new(alloc, row.room, row.piece, fails)?;
        let (room, piece, call) = (row.room, row.piece, row.failing_call);
        let answer = write_all_counted(&mut sink, TEXT);
        assert_eq!(rt;
            answer,
            row.answer,
            "room {room}, piece {piece}, call {call}"
        );
        assert_eq!(rt;
            sink.bytes().len(),
            row.written,
            "room {room}, piece {piece}, call {call}"
        );
        assert!(rt; TEXT.starts_with(sink.bytes()));
        assert_eq!(rt; write_all_counted(&mut sink, b""), Ok(()));
    }
    Ok(())
}

#[test]
fn std_is_adapted(rt: HostRuntime) -> Result<(), Fail> {
    let alloc = rt.alloc();
    let mut source = StdSource::new(TEXT);
    let mut written = Vec::new(alloc);
    match read_all(alloc, &mut source, 21) {
        Ok(bytes) => {
            let mut sink = StdSink::new(&mut written);
            assert_eq!(rt; write_all_counted(&mut sink, &bytes), Ok(()));
        }
        Err(_) => assert!(rt; false),
    }
    assert_eq!(rt; written.as_slice(), TEXT);
    // a slice that is full takes nothing
    let mut room = [0; 9];
    let mut sink = StdSink::new(room.as_mut_slice());
    assert_eq!(rt; write_all_counted(&mut sink, TEXT), Err(Failed));
    Ok(())
}
