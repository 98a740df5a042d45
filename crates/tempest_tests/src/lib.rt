//! Tests of the whole: input texts, the words of the command line, and what is written. It has no code of its own.
#![tactic(auto)]

#[cfg(test)]
mod asking;
#[cfg(test)]
mod cases;
#[cfg(test)]
mod counts;
#[cfg(test)]
mod journals;
#[cfg(test)]
mod runs;
#[cfg(test)]
mod tables;
#[cfg(test)]
mod texts;
#[cfg(test)]
mod trials;
