//! The tree of Stache_D as a literal in plain data, with every line 0: Stache, but a recall for a reader leaves the owner a
//! copy. It has no code: protocols are compared with it by definitions (`IsStacheD`).
#![tactic(auto)]

pub mod laws;
