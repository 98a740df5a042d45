//! What breaks the rules of a protocol, rule by rule, as lists of lines. The lists are made by one walk over a handler,
//! which counts in place of going along each path, and laws say that they hold the lines at which the rule is broken, and
//! no others. Beside them stand the parts of a checker that are exact: what is visible in a handler, the types of
//! expressions, and tests of single declarations and statements.
#![tactic(auto)]

mod breaks;
mod fault;
mod handler_scope;
mod laws;
mod lines;
mod names;
mod places;
mod scope;
mod steps;
mod types;
mod walk;

pub use breaks::{
    answers_undeclared, clashing_conts, counts_wrongly, undeclared_starts, without_default,
    wrong_starts,
};
pub use fault::{Fault, sooner};
pub use handler_scope::Scope;
pub use laws::{faults, firsts, one_walk, paths};
pub use lines::line_if;
pub use names::visible_names;
pub use places::Names;
pub use scope::{
    assigned_type, assigns, has_local, local_type, message_of, name_type, sees, state_of,
    taken_message,
};
pub use steps::{
    comes_first, drops_cont, is_counted, is_late, is_resume, lacks_data, resumes_foreign,
    uses_undeclared,
};
pub use types::{is_of, type_of};
pub use walk::{meets, meets_in, most};
