ghost use Rattle.std.specs.Prelude.{◌≡◌, IfOk, OnErr};
ghost use Rattle.tempest_run.specs.Calls.{IsDueFor, IsPlain, IsShort, IsText, Writes, due_status, due_text, told};

use crate::answer::{Answer, answer_to};
use crate::given::Given;
use crate::status::Status;
use std::alloc::Global;
use tw_base::Memory;
use tw_io::{Failed, Sink, write_all_counted};

/// What is to be written.
#[derive(Debug, Drop)]
pub enum Due {
    BadWords,
    BadLength,
    Answered(Answer),
}

impl Due {
    pub fn status(&self) -> Status
        ensures { result ≡ due_status self.now }
    {
        match self {
            Due::BadWords => Status::Usage,
            Due::BadLength => Status::TooLong,
            Due::Answered(answer) => answer.status,
        }
    }

    pub fn text(&self) -> &[u8]
        ensures { result.now ≡ due_text self.now }
    {
        match self {
            Due::BadWords => b"refused words\n",
            Due::BadLength => b"refused length\n",
            Due::Answered(answer) => answer.text.items(),
        }
    }
}

/// What is due for what was given.
pub fn answer_given(alloc: Global, given: &Given) -> Result<Due, Memory>
    requires short { IsShort given.now }
    requires plain { IsPlain given.now }
    ensures value { IfOk result (λ d. IsDueFor given.now d) }
    ensures wants { OnErr result (IsText given.now) }
{
    match given {
        Given::NoCommand => Ok(Due::BadWords),
        Given::TooLong => Ok(Due::BadLength),
        Given::Text(asked, text) => Ok(Due::Answered(answer_to(alloc, *asked, text.items())?)),
    }
}

/// Writes what is due.
pub fn write_due<K: Sink>(sink: &mut K, due: &Due) -> Status
    ensures { Writes (due_status due.now) (due_text due.now) (told (K.written sink.old) (K.faults sink.old))
        (told (K.written sink.new) (K.faults sink.new)) result }
{
    match write_all_counted(sink, due.text()) {
        Ok(()) => due.status(),
        Err(Failed) => Status::WriteFault,
    }
}
