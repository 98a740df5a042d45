//! Tests of the checker from the texts of protocols: for each rule what keeps it and what breaks it, with the line and the
//! rule that are named, worked out by hand. It has no code of its own.
#![tactic(auto)]

#[cfg(test)]
mod reading;
#[cfg(test)]
mod rules;
