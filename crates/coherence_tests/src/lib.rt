//! Tests of coherence on one state: runs under Stache, Stache_D and Stache_L are coherent after each event, and runs under
//! protocols that are one of them but for one edit break its parts. It has no code of its own.
#![tactic(auto)]

#[cfg(test)]
mod broken;
#[cfg(test)]
mod kept;
#[cfg(test)]
mod reading;
