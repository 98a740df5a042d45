//! Tests of the merge of the nodes' logs. It has no code of its own.
#![tactic(auto)]

#[cfg(test)]
mod merging;
