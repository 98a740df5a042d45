//! What every message leaves, whatever the protocol: a message that is deferred and eligible is freed with the others of its
//! block, and a message that declares no data is sent without payload.
#![tactic(auto)]

mod laws;

pub use laws::{eligible_messages_are_freed, sends_are_bare};
