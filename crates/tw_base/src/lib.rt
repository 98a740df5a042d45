//! What every crate of the simulator speaks of: numbers of nodes and blocks, sets of nodes, values, messages, the
//! entries of a journal, the shape of a machine, and the small containers that contracts see as plain lists.
//!
//! Each type is its exact value and its limits are kept in the type. Nothing here takes memory but the containers,
//! `Name::new` and `Name::copy`.
#![tactic(auto)]

mod entry;
mod least;
mod listed;
mod memory;
mod message;
mod name;
mod node;
mod node_set;
mod shape;
mod stack;
mod value;

pub use entry::{Access, Act, After, End, Entry, Event, Trap};
pub use least::lesser;
pub use listed::Listed;
pub use memory::Memory;
pub use message::{Chan, Kind, Message};
pub use name::Name;
pub use node::{BlockId, NodeId};
pub use node_set::NodeSet;
pub use shape::Shape;
pub use stack::Stack;
pub use value::{Data, Tag, Value};
