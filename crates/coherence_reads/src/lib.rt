//! What the decider of coherence reads off one block, under Stache, Stache_D and Stache_L: which continuation a state may
//! have, whether the directory of a home is as its state asks, and whether a cache stands as it asks. A further protocol
//! gives its words in `specs/Directories` and a case where a function takes a `Directory`.
#![tactic(auto)]

mod fits;
mod infos;
mod part;
mod standing;
mod states;
mod views;

pub use block_reads::{Whose, is_literal, place_of, place_seen, rest_read, rest_under};
pub use fits::{cache_fits, own_places, own_requests};
pub use infos::{acks, infos_fit, owner, sharers};
pub use note_reads::{
    Count, Few, Note, Summary, are_eligible, are_none_from, both, kept_of, note_of,
};
pub use part::Part;
pub use standing::{OfHome, Seen, is_nobody, stands};
pub use states::{
    held_home, held_ro, held_rw, is_cache, is_cache_node, is_home, is_settled, is_shared,
    is_waiting, left_fits, left_of, one_request, rest_fits, tag_of,
};
pub use views::{Home, Spot};
