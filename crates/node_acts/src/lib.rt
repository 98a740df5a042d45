//! What the acts of a node that run no handler make of what it stands for.
#![tactic(auto)]
