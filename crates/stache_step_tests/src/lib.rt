//! Tests of the table against the interpreter: each row and each Error is met by a walk of messages. It has no code of its
//! own.
#![tactic(auto)]

#[cfg(test)]
mod walks;
