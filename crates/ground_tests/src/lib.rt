//! Tests of the ground: numbers and texts, streams, tokens, assembly, blocks, records under keys, guarded programs, the words
//! of the command line, and the reader of reports. It has no code of its own.
#![tactic(auto)]

#[cfg(test)]
mod assembly;
#[cfg(test)]
mod base;
#[cfg(test)]
mod blocks;
#[cfg(test)]
mod conts;
#[cfg(test)]
mod guards;
#[cfg(test)]
mod lexing;
#[cfg(test)]
mod reports;
#[cfg(test)]
mod streams;
#[cfg(test)]
mod words;
