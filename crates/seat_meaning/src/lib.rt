//! What a seat is, a node with the ends of its wires as a thread has it; and what all seats are once no thread works for them.
//!
//! What a node sent was pushed on its wires or waits in it, and what was taken from the wires was delivered to it or is kept by
//! it. A message that the node may not keep would close its wire to the seat; where all seats are of one setup and on one set
//! of wires, there is none.
#![tactic(auto)]

mod laws;

pub use laws::opened_seats_are_still;
