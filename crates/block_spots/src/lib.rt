//! A state of a run as a proof about a protocol sees it, block by block: the words that shared-memory protocols have in common.
#![tactic(auto)]
