ghost use Rattle.std.specs.Prelude.{◌≡◌, IfOk};

use crate::places::Names;
use std::alloc::Global;
use teapot_tree::{Handler, Protocol, State};
use tw_base::Memory;

/// A handler, in its state and protocol, with a table of its arguments.
#[derive(Drop)]
pub struct Scope<'a> {
    pub protocol: &'a Protocol,
    pub state: &'a State,
    pub handler: &'a Handler,
    pub args: Names<'a>,
    ghost tabled: { args.names.now ≡ handler.now.args },
}

impl<'a> Scope<'a> {
    ghost use Rattle.teapot_rules.specs.Deeds.{scope_of};

    pub fn new(
        alloc: Global,
        protocol: &'a Protocol,
        state: &'a State,
        handler: &'a Handler,
    ) -> Result<Scope<'a>, Memory>
        ensures { IfOk result (λ scope. scope_of scope ≡ record
            { protocol = protocol.now; state = state.now; handler = handler.now }) }
    {
        let args = Names::new(alloc, handler.args.items())?;
        Ok(Scope {
            protocol,
            state,
            handler,
            args,
        })
    }
}
