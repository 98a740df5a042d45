ghost use Rattle.std.specs.Prelude.{◌≡◌, option_copied};
ghost use Rattle.handler_code.specs.Doors.{kind_of, same_kind};
ghost use Rattle.teapot_tree.specs.Scopes.{message_of, taken_message};
ghost use Rattle.code_walks.specs.Parts.{handler_of};

use handler_code::{Door, Kind2};
use teapot_tree::{Checked, Handler, MessageDecl, Protocol, Trigger};
use tw_base::Name;

/// What kind of message a handler is for.
fn kind_of(p: &Checked, on: &Trigger) -> Kind2
    ensures { result ≡ kind_of p.now on.now }
{
    match on {
        Trigger::RdFault => Kind2::RdFault,
        Trigger::WrFault => Kind2::WrFault,
        Trigger::Named(name) => Kind2::Named(p.message_number(name).unwrap_or(0)),
        Trigger::Default => Kind2::Default,
    }
}

/// Whether two doors of a state are for the same messages.
pub fn same_kind(a: Kind2, b: Kind2) -> bool
    ensures { result ≡ same_kind a b }
{
    match a {
        Kind2::RdFault => matches!(b, Kind2::RdFault),
        Kind2::WrFault => matches!(b, Kind2::WrFault),
        Kind2::Named(m) => matches!(b, Kind2::Named(n) if m == n),
        Kind2::Default => matches!(b, Kind2::Default),
    }
}

fn is_for(p: &Checked, handler: &Handler, on: Kind2) -> bool
    ensures { result ≡ same_kind (kind_of p.now handler.now.on) on }
{
    same_kind(kind_of(p, &handler.on), on)
}

/// The handler that a door is for.
pub fn handler_of<'a>(p: &'a Checked, door: Door) -> Option<&'a Handler>
    ensures { option_copied result ≡ handler_of p.now door }
{
    match p.protocol().states.get(door.state as usize) {
        None => None,
        Some(s) => s.handlers.items().iter().find(|h| is_for(p, h, door.on)),
    }
}

fn message_of<'a>(p: &'a Protocol, name: &Name) -> Option<&'a MessageDecl>
    ensures { option_copied result ≡ message_of p.now name.now }
{
    p.messages.items().iter().find(|m| m.name.is(name.bytes()))
}

/// The message that a handler is for.
pub fn taken_message<'a>(p: &'a Protocol, on: &Trigger) -> Option<&'a MessageDecl>
    ensures { option_copied result ≡ taken_message p.now on.now }
{
    match on {
        Trigger::RdFault => None,
        Trigger::WrFault => None,
        Trigger::Named(name) => message_of(p, name),
        Trigger::Default => None,
    }
}
