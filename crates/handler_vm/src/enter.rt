ghost use Rattle.std.specs.Prelude.{◌≡◌, ◌∷◌, ◌++◌, ◌+◌, ◌≤◌, length};
ghost use Rattle.tw_base.specs.declared.value.Value.TheVariants.{Int, Node};
ghost use Rattle.handler_code.specs.Doors.{args_taken, filled, zeros_of};

use crate::doors::Entry;
use crate::values::{Args, Slots};
use handler_code::{Door, Kind2};
use teapot_meaning::zero;
use teapot_tree::Param;
use tw_base::{Message, Value};

impl Slots {
    /// These values behind those that are there.
    fn extend(&mut self, values: &[Value])
        requires { length self.old + length values.now ≤ 21 }
        ensures { self.new ≡ self.old ++ values.now }
    {
        for value in values {
            self.push(*value);
        }
    }

    /// The values that these variables begin with.
    fn zeros(&mut self, locals: &[Param])
        requires { length self.old + length locals.now ≤ 21 }
        ensures { self.new ≡ self.old ++ zeros_of locals.now }
    {
        for local in locals {
            self.push(zero(local.ty));
        }
    }

    /// As many slots as a door has.
    fn fill(&mut self, slots: u8)
        requires few { slots ≤ 21 }
        requires room { length self.old ≤ 21 }
        ensures { self.new ≡ filled slots self.old }
    {
        let width = self.len();
        for _ in width..usize::from(slots) {
            self.push(Value::Int(0));
        }
    }

    /// The arguments that a door takes of a message.
    fn take_args(&mut self, door: &Door, m: &Message)
        requires { length self.old ≤ 17 }
        ensures new { self.new ≡ self.old ++ args_taken door.now.on m.now }
        ensures few { length self.new ≤ length self.old + 4 }
    {
        match door.on {
            Kind2::Default => {}
            _ => {
                let args = &m.args[..];
                self.extend(&args[..usize::from(m.arg_count)]);
            }
        }
    }
}

/// The slots become those with which a message enters the code.
pub(crate) fn enter_slots(slots: &mut Slots, entry: &Entry, args: &Args, m: &Message)
    requires few { entry.now.door.now.slots ≤ 21 }
    requires locals { length entry.now.handler.now.locals ≤ 8 }
    requires args { length args.now ≤ 4 }
    ensures { slots.new ≡ filled entry.now.door.now.slots
        (Node m.now.from ∷ (args.now ++ (args_taken entry.now.door.now.on m.now ++ zeros_of entry.now.handler.now.locals))) }
{
    slots.clear();
    slots.push(Value::Node(m.from));
    let places = args.places();
    let own = &places[..];
    slots.extend(&own[..usize::from(args.len())]);
    slots.take_args(entry.door, m);
    slots.zeros(entry.handler.locals.items());
    slots.fill(entry.door.slots);
}
