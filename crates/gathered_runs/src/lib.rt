//! What the logs of nodes that are at rest come to: their merge is a run of the model that ends quiet, and what was gathered of
//! the nodes is that run's.
#![tactic(auto)]

mod laws;

pub use laws::gathered_logs_are_a_run;
