//! Tests of the compiler of handlers and of the text of code, from the texts of protocols. The texts that are expected were
//! worked out by hand. It has no code of its own.
#![tactic(auto)]

#[cfg(test)]
mod tables;
#[cfg(test)]
mod tests;
