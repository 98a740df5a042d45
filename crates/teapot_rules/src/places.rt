ghost use Rattle.std.specs.Prelude.{◌≡◌, ℕ, List, Some, None, cond, position, IfOk, OnOk};
ghost use Rattle.std.specs.BTreeMap.{get_by};
ghost use Rattle.std.specs.Cmp.Lexicographic.{slice_cmp};
ghost use Rattle.std.specs.Option.{option_or};
ghost use Rattle.std.specs.Ordering.{nat_cmp};
ghost use Rattle.std.specs.Str.{bytes_eq};

use std::alloc::Global;
use std::collections::BTreeMap;
use tw_base::{Memory, Name};

/// Names, and a table of the place of the first of each.
#[derive(Drop)]
pub struct Names<'a> {
    pub names: &'a [Name],
    places: BTreeMap<&'a [u8], usize>,
    ghost placed: { (name : List ℕ) → get_by (λ k. slice_cmp nat_cmp name k.now) places
        ≡ position (λ m. bytes_eq m name) names.now },
}

fn look(places: &BTreeMap<&[u8], usize>, name: &Name) -> Option<usize>
    ensures { result ≡ get_by (λ k. slice_cmp nat_cmp name.now k.now) places.now }
{
    places.get(name.bytes()).copied()
}

/// Notes the place of a name, where it has none.
fn note<'a>(places: &mut BTreeMap<&'a [u8], usize>, name: &'a Name, at: usize) -> Result<(), Memory>
    ensures { OnOk result ((q : List ℕ) → get_by (λ k. slice_cmp nat_cmp q k.now) places.new
        ≡ option_or (get_by (λ k. slice_cmp nat_cmp q k.now) places.old) (cond (bytes_eq name.now q) (Some at) None)) }
{
    if look(places, name).is_some() {
        return Ok(());
    }
    places.insert(name.bytes(), at)?;
    Ok(())
}

impl<'a> Names<'a> {
    pub fn new(alloc: Global, names: &'a [Name]) -> Result<Names<'a>, Memory>
        ensures { IfOk result (λ table. table.names.now ≡ names.now) }
    {
        let mut places: BTreeMap<&[u8], usize> = BTreeMap::new(alloc);
        for (at, name) in names.iter().enumerate() {
            note(&mut places, name, at)?;
        }
        Ok(Names { names, places })
    }

    /// The place of the first of this name.
    pub fn position(&self, name: &Name) -> Option<usize>
        ensures { result ≡ position (λ m. bytes_eq m name.now) self.now.names.now }
    {
        look(&self.places, name)
    }
}
