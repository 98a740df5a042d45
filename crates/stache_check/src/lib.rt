//! Whether a protocol is one of those that keep one memory, Stache, Stache_D or Stache_L, told with no second tree and no memory.
#![tactic(auto)]

mod directory;
mod handler;
mod line;
mod protocol;
mod states;
mod states_d;
mod states_l;
mod term;
mod word;

pub use directory::Directory;
pub use handler::{On, are_none, is_handler, is_handler_choosing, is_info};
pub use line::{Branch, Line, Plain, are_lines, are_plain, is_line, is_plain};
pub use protocol::{Place, Sent, is_stache, is_stache_d, is_stache_l};
pub use term::{Atom, Term, is_atom, is_term};
pub use word::Word;
