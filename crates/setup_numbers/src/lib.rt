//! What a text sets up has numbers of 64 bits, as the text has.
#![tactic(auto)]

mod laws;

pub use laws::{read_settings_are_small, settings_of_small_lines};
