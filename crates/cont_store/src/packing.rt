ghost use Rattle.std.specs.Prelude.{◌≡◌, ◌-◌, ◌≤◌, drop, length, take};
ghost use Rattle.cont_store.specs.Packing.{is_zero, unpacked, IsPacked};

use tw_base::Value;

pub(crate) fn is_zero(value: &Value) -> bool
    ensures { result ≡ is_zero value.now }
{
    matches!(value, Value::Int(0))
}

/// Values packed: the last `count` places have those that are not `Int(0)`, and the mask has a bit for each value, the
/// lowest for the first, set where the value is not `Int(0)`.
#[derive(Drop)]
pub(crate) struct Packed {
    places: [Value; 21],
    pub(crate) count: usize,
    pub(crate) mask: u32,
}

/// Packs the values, from the last to the first.
pub(crate) fn pack(values: &[Value; 21]) -> Packed
    ensures packed { IsPacked values.now result.places result.count result.mask }
    ensures all { length values.now ≡ 21 }
{
    let mut places = [Value::Int(0); 21];
    let mut count = 0;
    let mut mask = 0;
    for place in (0..21usize).rev() {
        mask *= 2;
        if !is_zero(&values[place]) {
            count += 1;
            places[21 - count] = values[place];
            mask += 1;
        }
    }
    Packed {
        places,
        count,
        mask,
    }
}

impl Packed {
    /// Writes the packed values to the front of `room`.
    pub(crate) fn fill(&self, room: &mut [Value])
        requires enough { self.now.count ≤ length room.old }
        requires within { self.now.count ≤ 21 }
        requires places { length self.now.places ≡ 21 }
        ensures { take self.now.count room.new ≡ drop (21 - self.now.count) self.now.places }
    {
        let own = &self.places[..];
        room[..self.count].copy_from_slice(&own[21 - self.count..]);
    }
}

/// The values whose mask is `mask` and which are packed in `packed`.
pub(crate) fn unpack(mask: u32, packed: &[Value]) -> [Value; 21]
    ensures { result ≡ unpacked 21 mask packed.now }
{
    let mut values = [Value::Int(0); 21];
    let mut bits = mask;
    let mut left = packed;
    for place in 0..21usize {
        if bits % 2 == 1 {
            if let [first, rest @ ..] = left {
                values[place] = *first;
                left = rest;
            }
        }
        bits /= 2;
    }
    values
}
