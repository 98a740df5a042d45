//! The code of a protocol's handlers, as a definition, and that it does what their statements mean.
//!
//! `IsCode p code` says which code is that of a protocol: the ops of its handlers in the order of the text, a door for each
//! handler, and for each `Suspend` what follows it, with the slots that are read there; `one_code` says that there is no
//! other. `code_does_what_is_meant` says that under an accepted protocol a message that enters this code does what `Does`
//! says that it means.
//! `code_takes_few_ops` bounds the ops that it takes by the steps of that meaning, and `code_has_an_op_for_each_statement`
//! the statements of a handler by the ops of the code.
#![tactic(auto)]

mod laws;

pub use laws::{
    code_does_what_is_meant, code_has_an_op_for_each_statement, code_takes_few_ops, one_code,
    simulates,
};
