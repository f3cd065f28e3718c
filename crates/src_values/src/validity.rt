//! What every pointer keeps, as a test.

ghost use Rattle.std.specs.Prelude.{◌≡◌, ◌≤◌, ◌^◌, true};
ghost use Rattle.object_meaning.specs.Provenance.{IsWithin, BoundHolds, IsValid, IsPointer};

use crate::memory::Memory;
use object_meaning::{Ptr, PtrValue, Tag};

/// No object has more bytes.
const MOST_BYTES: u64 = 1 << 32;

/// No bound and offset together pass this.
const BOUNDS_END: i64 = 1 << 62;

impl Memory {
    /// Whether a pointer is to an object that is there, and valid while that lives.
    pub fn is_pointer(&self, p: PtrValue) -> bool
        ensures { result ≡ true → IsPointer self.now p }
    {
        match p {
            PtrValue::Null { claim: _ } => true,
            PtrValue::At(place) => {
                if place.object >= self.len() {
                    return false;
                }
                if !self.is_live(place.object) {
                    return true;
                }
                is_valid(self.object_size(place.object), place)
            }
        }
    }
}

/// Whether a place is one of a live object of so many bytes.
fn is_valid(size: u64, place: Ptr) -> bool
    ensures { result ≡ true → IsValid size place }
{
    size <= MOST_BYTES
        && is_within(size, place.offset)
        && is_within(size, place.end)
        && bound_holds(place.offset, place.end, place.tag)
}

fn is_within(size: u64, offset: i64) -> bool
    requires { size ≤ 2 ^ 32 }
    ensures { result ≡ true → IsWithin size offset }
{
    0 <= offset && offset <= size as i64
}

/// Whether what is known of a place holds all bytes up to its end.
fn bound_holds(offset: i64, end: i64, tag: Tag) -> bool
    requires starts { IsWithin (2 ^ 32) offset }
    requires ends { IsWithin (2 ^ 32) end }
    ensures { result ≡ true → BoundHolds offset end tag }
{
    match tag {
        Tag::Known => true,
        Tag::Bound(remaining) => end - offset <= remaining && remaining <= BOUNDS_END - offset,
        Tag::Unknown => true,
    }
}
