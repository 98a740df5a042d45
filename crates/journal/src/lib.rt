//! What is told of a run: how its nodes ended, the words of its memory, whether one flat memory explains its journal, and the
//! text of its report.
//!
//! Ends and words are read of any nodes (`Nodes`), those of the model or others that stand as the model's do. The logs of nodes
//! become one journal by a merge of their stamps (`merge`).
//!
//! The journal of a run is told beside the flat machine, which has processors and words and nothing else: either it does
//! what every completed entry says (`Agrees`), or the first read that differs is named (`IsBroken`).
#![tactic(auto)]

mod ends;
mod events;
mod finals;
mod gathered;
mod history;
mod laws;
mod merging;
mod modelled;
mod node_lines;
mod reports;

pub use ends::Nodes;
pub use finals::{Final, finals_of};
pub use gathered::words_of;
pub use history::{Break, first_break};
pub use laws::{
    followed_journals_have_no_break, history_is_told, read_words_are_told, report_has_the_prints,
};
pub use merging::merge;
pub use node_lines::add_outcome;
pub use reports::{Options, add_history, report};
