ghost use Rattle.std.specs.Prelude.{◌≡◌, position};
ghost use Rattle.std.specs.Str.{bytes_eq};
ghost use Rattle.teapot_tree.specs.Rules.{IsAccepted};
ghost use Rattle.teapot_tree.specs.Scopes.{message_number, state_number};

use crate::{MessageDecl, Protocol, State};
use std::marker::Model;
use tw_base::Name;

/// A protocol that breaks no rule.
#[derive(Debug, Drop)]
pub struct Checked {
    protocol: Protocol,
}

impl Model for Checked {
    ghost use Rattle.std.specs.Coded.{codes};
    ghost use Rattle.teapot_tree.specs.Rules.{IsAccepted};
    ghost use Rattle.teapot_tree.specs.contracts.expr.Expr as expr;
    ghost use Rattle.teapot_tree.specs.contracts.stmt.Do as statement;
    ghost use Rattle.teapot_tree.specs.declared.protocol.Protocol.{Protocol};

    ghost Value = { Protocol };

    ghost coded = { Prim.hlevel (codes, expr.the_row.coded, statement.the_row.coded) };

    ghost view = { λ c. c.protocol };

    ghost invariant = { λ c. IsAccepted c.protocol };
}

impl Checked {
    pub fn new(protocol: Protocol) -> Checked
        requires { IsAccepted protocol }
        ensures { result ≡ protocol }
    {
        Checked { protocol }
    }

    pub fn protocol(&self) -> &Protocol
        ensures value { result.now ≡ self.now }
        ensures accepted { IsAccepted self.now }
    {
        &self.protocol
    }

    pub fn into_protocol(self) -> Protocol
        ensures value { result ≡ self }
        ensures accepted { IsAccepted self }
    {
        let Checked { protocol } = self;
        protocol
    }

    /// The place of the first message of this name, below 64. None exactly where no message has it.
    pub fn message_number(&self, name: &Name) -> Option<u8>
        ensures { result ≡ message_number self.now name.now }
    {
        let at = message_at(self.protocol.messages.items(), name)?;
        Some(at as u8)
    }

    /// The place of the first state of this name, below 64. None exactly where no state has it.
    pub fn state_number(&self, name: &Name) -> Option<u8>
        ensures { result ≡ state_number self.now name.now }
    {
        let at = state_at(self.protocol.states.items(), name)?;
        Some(at as u8)
    }
}

fn message_at(messages: &[MessageDecl], name: &Name) -> Option<usize>
    ensures { result ≡ position (λ m. bytes_eq m.name name.now) messages.now }
{
    messages.iter().position(|m| m.name.is(name.bytes()))
}

fn state_at(states: &[State], name: &Name) -> Option<usize>
    ensures { result ≡ position (λ s. bytes_eq s.name name.now) states.now }
{
    states.iter().position(|s| s.name.is(name.bytes()))
}
