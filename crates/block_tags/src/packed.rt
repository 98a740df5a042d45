ghost use Rattle.std.specs.Prelude.{◌≡◌, ℕ, ◌<◌, ◌≢◌, replicate, slice_set};
ghost use Rattle.std.specs.List.{slice_index_or};
ghost use Rattle.block_tags.specs.Packed.{tag_by};
ghost use Rattle.tw_base.specs.Bits.{has_bit};

use std::marker::Model;
use tw_base::Tag;

/// The bits, with the one at a place set or cleared.
fn put(bits: u64, place: u8, on: bool) -> u64
    requires { place < 64 }
    ensures here { has_bit result place ≡ on }
    ensures others { (k : ℕ) → k < 64 → k ≢ place → has_bit result k ≡ has_bit bits k }
{
    if on {
        bits | 1 << place
    } else {
        bits & !(1 << place)
    }
}

fn has(bits: u64, place: u8) -> bool
    requires { place < 64 }
    ensures { result ≡ has_bit bits place }
{
    bits >> place & 1 == 1
}

fn tag_by(readable: bool, writable: bool) -> Tag
    ensures { result ≡ tag_by readable writable }
{
    match (readable, writable) {
        (false, _) => Tag::Invalid,
        (true, false) => Tag::ReadOnly,
        (true, true) => Tag::ReadWrite,
    }
}

/// Whether a tag lets its block be read, and be written.
fn uses_of(tag: Tag) -> (bool, bool)
    ensures { tag_by result.0 result.1 ≡ tag }
{
    match tag {
        Tag::Invalid => (false, false),
        Tag::ReadOnly => (true, false),
        Tag::ReadWrite => (true, true),
    }
}

/// The tags of 64 blocks, two bits each, seen as their list.
#[derive(Drop)]
pub struct PackedTags {
    // bit k: block k may be read
    readable: u64,
    // bit k: block k may be written
    writable: u64,
}

impl Model for PackedTags {
    ghost use Rattle.std.specs.Prelude.{List};
    ghost use Rattle.tw_base.specs.declared.value.Tag.{Tag};
    ghost use Rattle.block_tags.specs.Packed.{tags_in};

    ghost Value = { List Tag };

    ghost view = { λ t. tags_in t.readable t.writable };
}

impl PackedTags {
    pub fn invalid() -> Self
        ensures { result ≡ replicate 64 Tag.Invalid }
    {
        PackedTags {
            readable: 0,
            writable: 0,
        }
    }

    pub fn get(&self, block: u8) -> Tag
        requires { block < 64 }
        ensures { result ≡ slice_index_or self.now block Tag.Invalid }
    {
        tag_by(has(self.readable, block), has(self.writable, block))
    }

    pub fn set(&mut self, block: u8, tag: Tag)
        requires { block < 64 }
        ensures { self.new ≡ slice_set self.old block tag }
    {
        let (readable, writable) = uses_of(tag);
        self.readable = put(self.readable, block, readable);
        self.writable = put(self.writable, block, writable);
    }
}
