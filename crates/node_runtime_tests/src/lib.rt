//! Tests of nodes on threads: runs under gates that force a schedule, runs in whatever schedule comes, runs that go on past
//! want of memory, and turns of one node. It has no code of its own.
#![tactic(auto)]

#[cfg(test)]
mod gates;
#[cfg(test)]
mod going_on;
#[cfg(test)]
mod machines;
#[cfg(test)]
mod runs;
#[cfg(test)]
mod schedules;
#[cfg(test)]
mod turns;
