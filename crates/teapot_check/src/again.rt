ghost use Rattle.std.specs.Prelude.{◌≡◌, [], is_some, IfOk};
ghost use Rattle.std.specs.BTreeMap.{get_by};
ghost use Rattle.std.specs.Cmp.Lexicographic.{slice_cmp};
ghost use Rattle.std.specs.List.{list_any};
ghost use Rattle.std.specs.Ordering.{nat_cmp};
ghost use Rattle.std.specs.Str.{bytes_eq};
ghost use Rattle.teapot_rules.specs.Faults.{again_names, same_trigger, same_truth};
ghost use Rattle.teapot_rules.specs.Lists.{least, again};

use std::alloc::Global;
use std::collections::BTreeMap;
use teapot_rules::line_if;
use teapot_tree::{Handler, MessageDecl, Param, Start, State, Trigger};
use tw_base::{Memory, Name, lesser};

/// What is declared at a line, under a mark that is to stand once.
pub trait Declared {
    ghost use Rattle.std.specs.Prelude.{Bool, ℕ};

    /// Whether the other has its mark.
    ghost same_of: { Self → Self → Bool };

    ghost line_of: { Self → ℕ };

    fn same(&self, other: &Self) -> bool
        ensures { result ≡ same_of self.now other.now };

    fn line(&self) -> u32
        ensures { result ≡ line_of self.now };
}

impl Declared for MessageDecl {
    ghost same_of = { λ x y. bytes_eq y.name x.name };

    ghost line_of = { λ x. x.line };

    fn same(&self, other: &Self) -> bool {
        other.name.is(self.name.bytes())
    }

    fn line(&self) -> u32 {
        self.line
    }
}

impl Declared for Param {
    ghost same_of = { λ x y. bytes_eq y.name x.name };

    ghost line_of = { λ x. x.line };

    fn same(&self, other: &Self) -> bool {
        other.name.is(self.name.bytes())
    }

    fn line(&self) -> u32 {
        self.line
    }
}

impl Declared for State {
    ghost same_of = { λ x y. bytes_eq y.name x.name };

    ghost line_of = { λ x. x.line };

    fn same(&self, other: &Self) -> bool {
        other.name.is(self.name.bytes())
    }

    fn line(&self) -> u32 {
        self.line
    }
}

impl Declared for Handler {
    ghost same_of = { λ x y. same_trigger y.on x.on };

    ghost line_of = { λ x. x.line };

    fn same(&self, other: &Self) -> bool {
        same_trigger(&other.on, &self.on)
    }

    fn line(&self) -> u32 {
        self.line
    }
}

impl Declared for Start {
    ghost same_of = { λ x y. same_truth y.home x.home };

    ghost line_of = { λ x. x.line };

    fn same(&self, other: &Self) -> bool {
        other.home == self.home
    }

    fn line(&self) -> u32 {
        self.line
    }
}

fn same_trigger(a: &Trigger, b: &Trigger) -> bool
    ensures { result ≡ same_trigger a.now b.now }
{
    match (a, b) {
        (Trigger::RdFault, Trigger::RdFault) => true,
        (Trigger::WrFault, Trigger::WrFault) => true,
        (Trigger::Named(a), Trigger::Named(b)) => a.is(b.bytes()),
        (Trigger::Default, Trigger::Default) => true,
        _ => false,
    }
}

/// Whether one of them has the mark of the item.
fn stands<T: Declared>(before: &[T], item: &T) -> bool
    ensures { result ≡ list_any (T.same_of item.now) before.now }
{
    before.iter().any(|other| item.same(other))
}

/// The least line of those that have the mark of an earlier one.
pub fn again<T: Declared>(items: &[T]) -> Option<u32>
    ensures { result ≡ least (again T.same_of T.line_of [] items.now) }
{
    let mut least = None;
    for (at, item) in items.iter().enumerate() {
        let later = stands(&items[..at], item);
        least = lesser(least, line_if(later, item.line()));
    }
    least
}

fn is_in(seen: &BTreeMap<&[u8], u32>, name: &Name) -> bool
    ensures { result ≡ is_some (get_by (λ k. slice_cmp nat_cmp name.now k.now) seen.now) }
{
    seen.get(name.bytes()).is_some()
}

/// The least line of a name that an earlier one is the same as.
pub fn again_named(alloc: Global, names: &[(Name, u32)]) -> Result<Option<u32>, Memory>
    ensures { IfOk result (λ found. found ≡ least (again_names names.now)) }
{
    let mut seen: BTreeMap<&[u8], u32> = BTreeMap::new(alloc);
    let mut least = None;
    for named in names {
        let later = is_in(&seen, &named.0);
        least = lesser(least, line_if(later, named.1));
        seen.insert(named.0.bytes(), named.1)?;
    }
    Ok(least)
}
