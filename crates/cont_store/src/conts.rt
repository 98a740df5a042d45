ghost use Rattle.std.specs.Prelude.{◌≡◌, ◌+◌, ◌≤◌, IfSome, IsOk, IsSome, None, OnErr, OnOk, Some};

use crate::packed::{Medium, Small};
use crate::packing::pack;
use crate::record::{Record, RecordKey};
use slab::Slab;
use std::alloc::Global;
use std::marker::Model;
use tw_base::Memory;

/// Saved records under keys, and room for some more.
#[derive(Drop)]
pub struct Conts {
    small: Slab<Small>,
    medium: Slab<Medium>,
    large: Slab<Record>,
    // so many more fit into each of the three
    spare: usize,
}

impl Model for Conts {
    ghost use Rattle.cont_store.specs.Store.{Store};

    ghost Value = { Store };

    ghost use Rattle.cont_store.specs.Parts.{store_of, HasRooms};

    ghost view = { store_of };

    ghost invariant = { HasRooms };
}

impl Conts {
    ghost use Rattle.cont_store.specs.declared.record.RecordKey.{RecordKey};
    ghost use Rattle.cont_store.specs.Packing.{class_of};
    ghost use Rattle.cont_store.specs.Store.{record_at, record_count, Changes};

    /// Holds no record, and takes no memory.
    pub fn new(alloc: Global) -> Self
        ensures empty { (key : RecordKey) → record_at result key ≡ None }
        ensures count { record_count result ≡ 0 }
        ensures spare { result.spare ≡ 0 }
    {
        Conts {
            small: Slab::new(alloc),
            medium: Slab::new(alloc),
            large: Slab::new(alloc),
            spare: 0,
        }
    }

    /// Makes room for at least one more record of any size.
    pub fn reserve(&mut self) -> Result<(), Memory>
        ensures room { OnOk result (1 ≤ self.new.spare) }
        ensures records { self.new ≡ record self.old { spare = self.new.spare } }
        ensures had_room { 1 ≤ self.old.spare → IsOk result }
        ensures err { OnErr result (self.new ≡ self.old) }
    {
        if self.spare == 0 {
            self.small.reserve(1)?;
            self.medium.reserve(1)?;
            self.large.reserve(1)?;
            self.spare = 1;
        }
        Ok(())
    }

    /// Saves a record under a key that named none.
    pub fn save(&mut self, saved: Record) -> RecordKey
        requires { 1 ≤ self.old.spare }
        ensures was_free { record_at self.old result ≡ None }
        ensures changes { Changes self.old self.new result (Some saved) }
        ensures class { result.class ≡ class_of saved.values }
        ensures count { record_count self.new ≡ record_count self.old + 1 }
        ensures spare { self.new.spare + 1 ≡ self.old.spare }
    {
        self.spare -= 1;
        let packed = pack(&saved.values);
        match packed.count {
            0..=4 => RecordKey {
                class: 0,
                at: self.small.insert_reserved(Small::of(saved, &packed)),
            },
            5..=8 => RecordKey {
                class: 1,
                at: self.medium.insert_reserved(Medium::of(saved, &packed)),
            },
            _ => RecordKey {
                class: 2,
                at: self.large.insert_reserved(saved),
            },
        }
    }

    /// Takes the record that a key names out of the store.
    pub fn take(&mut self, key: RecordKey) -> Record
        requires { IsSome (record_at self.old key) }
        ensures taken { record_at self.old key ≡ Some result }
        ensures changes { Changes self.old self.new key None }
        ensures count { record_count self.new + 1 ≡ record_count self.old }
        ensures spare { self.new.spare ≡ self.old.spare }
    {
        match key.class {
            0 => self.small.remove(key.at).whole(),
            1 => self.medium.remove(key.at).whole(),
            _ => self.large.remove(key.at),
        }
    }

    /// The record that a key names, which stays.
    pub fn get(&self, key: RecordKey) -> Record
        requires { IsSome (record_at self.now key) }
        ensures { record_at self.now key ≡ Some result }
    {
        match key.class {
            0 => self.small[key.at].whole(),
            1 => self.medium[key.at].whole(),
            _ => self.large[key.at],
        }
    }

    /// How many records the chain from this one on has.
    pub fn depth_of(&self, key: RecordKey) -> u8
        requires { IsSome (record_at self.now key) }
        ensures { IfSome (record_at self.now key) (λ saved. result ≡ saved.depth) }
    {
        match key.class {
            0 => self.small[key.at].depth,
            1 => self.medium[key.at].depth,
            _ => self.large[key.at].depth,
        }
    }
}
