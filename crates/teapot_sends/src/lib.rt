//! How much a handler does at most: how many messages it sends, and how many steps it takes.
#![tactic(auto)]

mod laws;

pub use laws::{handlers_send_few, handlers_take_few_steps};
