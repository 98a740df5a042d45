//! Coherence of a shared-memory protocol beside one flat memory, as far as it names no row of the protocol: the words that the
//! protocols have in common, what a protocol has to show of its rows, and what follows from that.
#![tactic(auto)]
