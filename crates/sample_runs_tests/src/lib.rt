//! Tests of the samples: the machine of each beside the text that spells it, and the summaries of runs on the model. It has no
//! code of its own.
#![tactic(auto)]

#[cfg(test)]
mod setups;
#[cfg(test)]
mod summaries;
