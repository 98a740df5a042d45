//! Tests of the wires between nodes, on one thread: what is pushed on a wire is taken from it in its order, nothing comes from
//! another wire, and what is left is told at the end. It has no code of its own.
#![tactic(auto)]

#[cfg(test)]
mod left;
#[cfg(test)]
mod pairs;
#[cfg(test)]
mod passing;
#[cfg(test)]
mod rounds;
#[cfg(test)]
mod routes;
