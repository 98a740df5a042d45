//! Tests of the model: machines that are driven event by event, with what each event does and how the nodes end, worked out
//! by hand. It has no code of its own.
#![tactic(auto)]

#[cfg(test)]
mod driven;
#[cfg(test)]
mod rows;
