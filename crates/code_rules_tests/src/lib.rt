//! Tests of the rules of code and of live slots, on the code of protocols and on code that was changed. It has no code of its
//! own.
#![tactic(auto)]

#[cfg(test)]
mod changes;
#[cfg(test)]
mod tests;
