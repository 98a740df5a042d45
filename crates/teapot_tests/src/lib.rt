//! Tests of protocols from their texts: what handlers do, statement by statement, against results worked out by hand;
//! and of trees: words, copies. It has no code of its own.
#![tactic(auto)]

#[cfg(test)]
mod protocols;
#[cfg(test)]
mod rows;
#[cfg(test)]
mod shown;
#[cfg(test)]
mod tests;
#[cfg(test)]
mod trees;
