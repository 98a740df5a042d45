ghost use Rattle.std.specs.Prelude.{map};
ghost use Rattle.std.specs.String.{string_bytes};
ghost use Rattle.tempest_words.specs.Words.{asked};
ghost use Rattle.tempest_run.specs.Asking.{asked_plain};
ghost use Rattle.tempest_run.specs.Calls.{TopCall, told};

use crate::asking::{asked, asked_plain, is_threaded};
use crate::due::{answer_given, write_due};
use crate::given::{Stopped, read_given};
use crate::status::Status;
use crate::threads::threaded_call;
use node_runtime::Gate;
use std::alloc::Global;
use std::sync::Wait;
use std::thread::Threads;
use tw_base::Memory;
use tw_io::{Sink, Source};

/// All that the program does but for runs on threads, which are no command of this call: reads the source to its end where what
/// the words ask for has an input, and writes the answer to the sink, or one line that says what was refused. It waits for
/// nothing.
pub fn tempest_plain<S: Source, K: Sink>(
    alloc: Global,
    words: &[String],
    source: &mut S,
    sink: &mut K,
) -> Status
    ensures { TopCall (asked_plain (map string_bytes words.now)) (told (S.left source.old) (S.faults source.old))
        (told (S.left source.new) (S.faults source.new))
        (told (K.written sink.old) (K.faults sink.old)) (told (K.written sink.new) (K.faults sink.new)) result }
{
    let Ok(asked) = asked_plain(alloc, words) else {
        return Status::Memory;
    };
    let given = match read_given(alloc, asked, source) {
        Ok(given) => given,
        Err(Stopped::ReadFault) => return Status::ReadFault,
        Err(Stopped::Memory) => return Status::Memory,
    };
    let Ok(due) = answer_given(alloc, &given) else {
        return Status::Memory;
    };
    write_due(sink, &due)
}

/// All that the program does. It waits for locks where the run is to be made on threads, and for nothing else.
pub fn tempest<R: Threads + Wait + Sync, S: Source, K: Sink, G: Gate + Sync>(
    rt: &R,
    alloc: Global,
    words: &[String],
    source: &mut S,
    sink: &mut K,
    gate: &G,
) -> Status
    ensures { TopCall (asked (map string_bytes words.now)) (told (S.left source.old) (S.faults source.old))
        (told (S.left source.new) (S.faults source.new))
        (told (K.written sink.old) (K.faults sink.old)) (told (K.written sink.new) (K.faults sink.new)) result }
{
    match asked(alloc, words) {
        Ok(Some(asked)) if is_threaded(asked.command) => {
            threaded_call(rt, alloc, asked, source, sink, gate)
        }
        Ok(_) => tempest_plain(alloc, words, source, sink),
        Err(Memory) => Status::Memory,
    }
}
