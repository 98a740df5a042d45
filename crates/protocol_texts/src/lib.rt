//! Texts of protocols in this repository: what tree a text gives, and reading one that is known to be an accepted protocol's.
//!
//! A protocol that is shipped gives its text (a list of lines and one constant), its tree in the notation
//! (`stache_tree::specs::Code`) with the law that it is accepted, and the states as they are told (`Told`). Then `proofs/Tied`
//! says that the text is read as that tree: of the protocol it asks for one `refl`, that the canonical text of what is told is
//! the text. `accepted_protocol` reads it.
#![tactic(auto)]

mod reading;

pub use reading::accepted_protocol;
