ghost use Rattle.std.specs.Prelude.{◌≡◌, [], ◌∷◌, ◌++◌, ◌<◌, ◌≤◌, ◌-◌, Some, drop, length, replicate, reverse, slice_set, take};
ghost use Rattle.tw_base.specs.declared.value.Value.TheVariants.{Int};
ghost use Rattle.handler_code.specs.Doors.{filled};
ghost use Rattle.handler_code.specs.Machine.{below, is_live, saved_values, top, value_at};

use handler_code::Rest;
use std::marker::Model;
use tw_base::Value;

/// Whether a rest reads a slot.
fn is_live(rest: &Rest, k: usize) -> bool
    requires { k < 32 }
    ensures { result ≡ is_live rest.now k }
{
    rest.live >> k & 1 == 1
}

/// The slots of a handler, at most 21.
#[derive(Drop)]
pub(crate) struct Slots {
    values: [Value; 21],
    width: usize,
}

impl Model for Slots {
    ghost use Rattle.std.specs.Prelude.{List, length, take, ◌≡◌, ◌≤◌};
    ghost use Rattle.tw_base.specs.declared.value.Value.{Value as Held};

    ghost Value = { List Held };

    ghost view = { λ s. take s.width s.values };

    ghost invariant = { λ s. (length s.values ≡ 21) × (s.width ≤ 21) };
}

impl Slots {
    pub(crate) fn new() -> Slots
        ensures { result ≡ [] }
    {
        Slots {
            values: [Value::Int(0); 21],
            width: 0,
        }
    }

    pub(crate) fn clear(&mut self)
        ensures { self.new ≡ [] }
    {
        self.width = 0;
    }

    /// All 21 are set.
    pub(crate) fn set_all(&mut self, values: &[Value; 21])
        ensures { self.new ≡ values.now }
    {
        self.values.copy_from_slice(values);
        self.width = 21;
    }

    pub(crate) fn len(&self) -> usize
        ensures value { result ≡ length self.now }
        ensures most { length self.now ≤ 21 }
    {
        self.width
    }

    /// One slot more.
    pub(crate) fn push(&mut self, value: Value)
        requires { length self.old < 21 }
        ensures { self.new ≡ self.old ++ value ∷ [] }
    {
        self.values[self.width] = value;
        self.width += 1;
    }

    pub(crate) fn get(&self, k: u8) -> Value
        requires { k < length self.now }
        ensures { result ≡ value_at self.now k }
    {
        self.values[usize::from(k)]
    }

    pub(crate) fn set(&mut self, k: u8, value: Value)
        requires { k < length self.old }
        ensures { self.new ≡ slice_set self.old k value }
    {
        self.values[usize::from(k)] = value;
    }

    /// The values that a rest reads, and 0 in the other places.
    pub(crate) fn saved(&self, rest: &Rest) -> [Value; 21]
        ensures value { result ≡ filled 21 (saved_values (Some rest.now) self.now) }
        ensures all { length result ≡ 21 }
    {
        let own = &self.values[..];
        let mut values = [Value::Int(0); 21];
        for k in 0..self.width {
            if is_live(rest, k) {
                values[k] = own[k];
            }
        }
        values
    }
}

/// The stack of a run, at most 24 values, the top first.
#[derive(Drop)]
pub(crate) struct Operands {
    values: [Value; 24],
    len: usize,
}

impl Model for Operands {
    ghost use Rattle.std.specs.Prelude.{List, length, reverse, take, ◌≡◌, ◌≤◌};
    ghost use Rattle.tw_base.specs.declared.value.Value.{Value as Held};

    ghost Value = { List Held };

    ghost view = { λ s. reverse (take s.len s.values) };

    ghost invariant = { λ s. (length s.values ≡ 24) × (s.len ≤ 24) };
}

impl Operands {
    pub(crate) fn new() -> Operands
        ensures { result ≡ [] }
    {
        Operands {
            values: [Value::Int(0); 24],
            len: 0,
        }
    }

    pub(crate) fn push(&mut self, value: Value)
        requires { length self.old < 24 }
        ensures { self.new ≡ value ∷ self.old }
    {
        self.values[self.len] = value;
        self.len += 1;
    }

    /// Takes the top.
    pub(crate) fn pop(&mut self) -> Value
        requires { 0 < length self.old }
        ensures value { result ≡ top self.old }
        ensures rest { self.new ≡ below self.old }
        ensures len { length self.new ≡ length self.old - 1 }
    {
        self.len -= 1;
        self.values[self.len]
    }

    /// Takes as many of the topmost values as are asked for, and gives them in the order in which they were pushed.
    pub(crate) fn take(&mut self, count: usize) -> Args
        requires few { count ≤ 4 }
        requires enough { count ≤ length self.old }
        ensures args { result ≡ reverse (take count self.old) }
        ensures rest { self.new ≡ drop count self.old }
    {
        let end = self.len;
        let start = end - count;
        self.len = start;
        let all = &self.values[..];
        Args::of(&all[start..end])
    }

    pub(crate) fn clear(&mut self)
        ensures { self.new ≡ [] }
    {
        self.len = 0;
    }
}

/// The arguments of a state or a message, at most four; the places past them are 0.
#[derive(Drop)]
pub(crate) struct Args {
    values: [Value; 4],
    count: usize,
}

impl Model for Args {
    ghost use Rattle.std.specs.Prelude.{List, take};
    ghost use Rattle.tw_base.specs.declared.value.Value.{Value as Held};
    ghost use Rattle.handler_vm.specs.Places.{IsPadded};

    ghost Value = { List Held };

    ghost view = { λ a. take a.count a.values };

    ghost invariant = { λ a. IsPadded a.count a.values };
}

impl Args {
    pub(crate) fn of(values: &[Value]) -> Args
        requires { length values.now ≤ 4 }
        ensures { result ≡ values.now }
    {
        let mut places = [Value::Int(0); 4];
        places[..values.len()].copy_from_slice(values);
        Args {
            values: places,
            count: values.len(),
        }
    }

    /// The first values.
    pub(crate) fn first(values: &[Value], count: usize) -> Args
        requires within { count ≤ length values.now }
        requires few { count ≤ 4 }
        ensures { result ≡ take count values.now }
    {
        Args::of(&values[..count])
    }

    pub(crate) fn len(&self) -> u8
        ensures value { result ≡ length self.now }
        ensures most { result ≤ 4 }
    {
        self.count as u8
    }

    /// The arguments, and 0 in the places past them.
    pub(crate) fn places(&self) -> [Value; 4]
        ensures value { result ≡ filled 4 self.now }
        ensures used { take (length self.now) result ≡ self.now }
        ensures unused { drop (length self.now) result ≡ replicate (4 - length self.now) (Int 0) }
        ensures all { length result ≡ 4 }
    {
        let mut places = [Value::Int(0); 4];
        places.copy_from_slice(&self.values);
        places
    }
}
