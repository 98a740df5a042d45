//! Tests of reports that stand trial: a report of two nodes, what is written of it, and how it is denied where a line is
//! changed, worked out by hand. It has no code of its own.
#![tactic(auto)]

#[cfg(test)]
mod tests;
