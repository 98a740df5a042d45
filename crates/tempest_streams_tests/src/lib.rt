//! Tests of the whole where an end of it fails or its text is cut: each prefix of a text, each read and each write failing in
//! turn, and protocols that lead nowhere, on threads. It has no code of its own.
#![tactic(auto)]

#[cfg(test)]
mod calls;
#[cfg(test)]
mod faults;
#[cfg(test)]
mod prefixes;
#[cfg(test)]
mod threads;
