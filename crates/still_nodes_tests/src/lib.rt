//! Tests of all nodes on one thread: machines that are driven event by event, with what is told of them worked out by hand, and
//! serial runs beside those of the model. Reports of serial runs that are worked out by hand stand in `tempest_tests`. It has no
//! code of its own.
#![tactic(auto)]

#[cfg(test)]
mod beside;
#[cfg(test)]
mod driven;
#[cfg(test)]
mod events;
#[cfg(test)]
mod setups;
#[cfg(test)]
mod telling;
