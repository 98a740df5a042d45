//! What all nodes on one thread stand for, with the messages between them: a state of the model.
//!
//! A message is on its way from its sending until it is delivered, wherever it lies: in its sender, in a row of messages that
//! follow one that the receiver keeps, or with the receiver. So handing it over changes no state of the model.
#![tactic(auto)]

mod laws;

pub use laws::{
    events_of_one_are_of_all, first_messages_have_the_next_number, handed_messages_change_nothing,
    messages_stay_on_their_way, runs_of_all_go_on, schedules_of_all_go_on, schedules_of_all_settle,
    tests_tell_what_is_enabled, what_is_read_is_the_states,
};
