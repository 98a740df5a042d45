ghost use Rattle.std.specs.Prelude.{◌≡◌, ◌≤◌, length};
ghost use Rattle.cont_store.specs.Packing.{IsPacked};
ghost use Rattle.cont_store.specs.Packed.{small_whole, medium_whole};

use crate::packing::{Packed, unpack};
use crate::record::{Record, RecordKey};
use tw_base::{Data, Value};

/// A record with at most four values that are not `Int(0)`: the mask says which, and `values` has them in front.
#[derive(Clone, Copy)]
pub(crate) struct Small {
    rest: u32,
    mask: u32,
    values: [Value; 4],
    came: Option<Data>,
    state: u8,
    args: [Value; 4],
    parent: Option<RecordKey>,
    pub(crate) depth: u8,
}

impl Small {
    pub(crate) fn of(saved: Record, packed: &Packed) -> Self
        requires all { length saved.values ≡ 21 }
        requires packed { IsPacked saved.values packed.now.places packed.now.count packed.now.mask }
        requires few { packed.now.count ≤ 4 }
        ensures { small_whole result ≡ saved }
    {
        let Record {
            rest,
            values: _,
            came,
            state,
            args,
            parent,
            depth,
        } = saved;
        let mut room = [Value::Int(0); 4];
        packed.fill(&mut room);
        Small {
            rest,
            mask: packed.mask,
            values: room,
            came,
            state,
            args,
            parent,
            depth,
        }
    }

    pub(crate) fn whole(self) -> Record
        ensures { result ≡ small_whole self }
    {
        let Small {
            rest,
            mask,
            values,
            came,
            state,
            args,
            parent,
            depth,
        } = self;
        let values = unpack(mask, &values);
        Record {
            rest,
            values,
            came,
            state,
            args,
            parent,
            depth,
        }
    }
}

/// A record with at most eight values that are not `Int(0)`: the mask says which, and `values` has them in front.
#[derive(Clone, Copy)]
pub(crate) struct Medium {
    rest: u32,
    mask: u32,
    values: [Value; 8],
    came: Option<Data>,
    state: u8,
    args: [Value; 4],
    parent: Option<RecordKey>,
    pub(crate) depth: u8,
}

impl Medium {
    pub(crate) fn of(saved: Record, packed: &Packed) -> Self
        requires all { length saved.values ≡ 21 }
        requires packed { IsPacked saved.values packed.now.places packed.now.count packed.now.mask }
        requires few { packed.now.count ≤ 8 }
        ensures { medium_whole result ≡ saved }
    {
        let Record {
            rest,
            values: _,
            came,
            state,
            args,
            parent,
            depth,
        } = saved;
        let mut room = [Value::Int(0); 8];
        packed.fill(&mut room);
        Medium {
            rest,
            mask: packed.mask,
            values: room,
            came,
            state,
            args,
            parent,
            depth,
        }
    }

    pub(crate) fn whole(self) -> Record
        ensures { result ≡ medium_whole self }
    {
        let Medium {
            rest,
            mask,
            values,
            came,
            state,
            args,
            parent,
            depth,
        } = self;
        let values = unpack(mask, &values);
        Record {
            rest,
            values,
            came,
            state,
            args,
            parent,
            depth,
        }
    }
}
