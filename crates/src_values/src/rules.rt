//! Rules by which a pointer comes from nothing or from another value alone.

ghost use Rattle.std.specs.Prelude.{◌≡◌, ◌+◌, ◌≤◌, ◌^◌, ◌+ℤ◌, pos, IfSome};
ghost use Rattle.std.specs.Int.{int_min};
ghost use Rattle.object_meaning.specs.Provenance.{IsWithin, is_claim, null, named, part_tag, trail_tag, forgot, fresh};

use object_meaning::{Ptr, PtrValue, Tag};

/// From here on a size is none that an object has.
const CLAIMS_END: u64 = 1 << 63;

/// The null constant.
pub fn null() -> PtrValue
    ensures { result ≡ null }
{
    PtrValue::Null { claim: None }
}

/// A pointer of which nothing is known but its place: one that was loaded, or that a function got or gave.
pub fn forgot(p: PtrValue) -> PtrValue
    ensures { result ≡ forgot p }
{
    match p {
        PtrValue::Null { claim: _ } => null(),
        PtrValue::At(place) => PtrValue::At(Ptr {
            object: place.object,
            offset: place.offset,
            end: place.end,
            tag: Tag::Unknown,
        }),
    }
}

/// Whether a result may be known by a size.
pub fn is_claim(size: u64) -> bool
    ensures { result ≡ is_claim size }
{
    size < CLAIMS_END
}

/// What an allocation of so many bytes gives: its object, or null where there is none, which keeps the size.
pub fn fresh(object: Option<u64>, size: u64) -> PtrValue
    requires { IfSome object (λ o. size ≤ 2 ^ 32) }
    ensures { result ≡ fresh object size }
{
    match object {
        None => {
            if is_claim(size) {
                PtrValue::Null { claim: Some(size) }
            } else {
                null()
            }
        }
        Some(object) => PtrValue::At(Ptr {
            object,
            offset: 0,
            end: size as i64,
            tag: Tag::Known,
        }),
    }
}

/// A member, or an array used as a pointer, on a path from a variable or a literal.
pub fn named(place: Ptr, k: u64, size: u64) -> Ptr
    requires starts { IsWithin (2 ^ 32) place.offset }
    requires behind { k ≤ 2 ^ 32 }
    requires few { size ≤ 2 ^ 32 }
    ensures { result ≡ named k size place }
{
    Ptr {
        object: place.object,
        offset: behind(place.offset, k),
        end: behind(place.offset, k + size),
        tag: Tag::Known,
    }
}

/// So many bytes behind an offset.
pub fn behind(offset: i64, count: u64) -> i64
    requires starts { IsWithin (2 ^ 32) offset }
    requires few { count ≤ 2 ^ 33 }
    ensures { result ≡ offset +ℤ pos count }
{
    offset + count as i64
}

/// The nearer of two ends.
pub fn nearer(end: i64, other: i64) -> i64
    ensures { result ≡ int_min end other }
{
    if end <= other { end } else { other }
}

/// What is known of a member or an array of so many bytes behind a pointer.
pub fn part_tag(size: u64, tag: Tag) -> Tag
    requires { size ≤ 2 ^ 32 }
    ensures { result ≡ part_tag size tag }
{
    match tag {
        Tag::Known => Tag::Known,
        Tag::Bound(_) => Tag::Bound(size as i64),
        Tag::Unknown => Tag::Bound(size as i64),
    }
}

/// What is known of a trailing array behind a pointer.
pub fn trail_tag(tag: Tag) -> Tag
    ensures { result ≡ trail_tag tag }
{
    match tag {
        Tag::Known => Tag::Known,
        Tag::Bound(_) => Tag::Unknown,
        Tag::Unknown => Tag::Unknown,
    }
}
