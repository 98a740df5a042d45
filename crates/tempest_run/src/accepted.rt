ghost use Rattle.std.specs.Prelude.{◌≡◌, ◌≤◌, length, IfOk};
ghost use Rattle.std.specs.List.{flat_map};
ghost use Rattle.tempest_run.specs.Answering.{check_answer};

use crate::answer::Answer;
use crate::status::Status;
use std::alloc::Global;
use teapot_tree::{Checked, State};
use tw_base::{Listed, Memory};

// How many handlers there are in all.
fn handlers_in(states: &[State]) -> usize
    requires { length (flat_map (λ s. s.handlers) states.now) ≤ 1024 }
    ensures { result ≡ length (flat_map (λ s. s.handlers) states.now) }
{
    let mut count = 0;
    for state in states {
        count += state.handlers.len();
    }
    count
}

/// What an accepted protocol has.
pub fn check_answer(alloc: Global, protocol: &Checked) -> Result<Answer, Memory>
    ensures { IfOk result (λ a. a ≡ check_answer protocol.now) }
{
    let p = protocol.protocol();
    let (messages, infos) = (p.messages.len(), p.infos.len());
    let (states, handlers) = (p.states.len(), handlers_in(p.states.items()));
    let counts = format!(in alloc;
        " messages {messages} infos {infos} states {states} handlers {handlers}\n"
    )?;
    let mut text = b"accepted ".as_slice().to_vec(alloc)?;
    text.extend_from_slice(p.name.bytes())?;
    text.extend_from_slice(counts.as_bytes())?;
    Ok(Answer {
        status: Status::Done,
        text: Listed::of(text),
    })
}
