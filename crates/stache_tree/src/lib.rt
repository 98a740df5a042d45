//! The shipped protocol's tree as a literal in plain data, with every line 0. It has no code: protocols are compared with
//! it by definitions (`IsStache`).
#![tactic(auto)]

pub mod laws;
