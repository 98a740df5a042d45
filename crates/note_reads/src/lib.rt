//! What the decider of coherence reads off one message and off a list of messages: what each says, how many there are of a
//! sort, and what of a block a home deferred.
#![tactic(auto)]

mod count;
mod deferred;
mod few;
mod note;
mod summary;

pub use count::{Count, both};
pub use deferred::{are_eligible, are_none_from, kept_of};
pub use few::Few;
pub use note::{Note, note_of};
pub use summary::{Sort, Summary};
