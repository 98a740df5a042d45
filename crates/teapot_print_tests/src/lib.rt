//! Tests of the reader and the printer of protocols: texts that are printed, and lines that are refused, with the refusal
//! worked out by hand. It has no code of its own.
#![tactic(auto)]

#[cfg(test)]
mod refusals;
#[cfg(test)]
mod spellings;
#[cfg(test)]
mod tests;
