//! The top of the simulator: what an input text sets up, what is answered to it, and the call that does all that the
//! program does.
#![tactic(auto)]

mod accepted;
mod answer;
mod asking;
mod due;
mod given;
mod input;
mod laws;
mod status;
mod threads;
mod top;

pub use dsm_runs::Setup;
pub use input::read_input;
pub use laws::{
    answer_is_one, calls_that_do_not_fail_answer, commands_are_answered, statuses_say,
    text_is_valid_or_refused,
};
pub use status::Status;
pub use tempest_input::{InputError, Why};
pub use top::{tempest, tempest_plain};
