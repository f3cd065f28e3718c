//! Pointers that are moved.

ghost use Rattle.std.specs.Prelude.{◌≡◌, ◌+◌, ◌≤◌, ◌^◌, ◌+ℤ◌, pos, Some, None, if◌then◌else◌};
ghost use Rattle.object_meaning.specs.Provenance.{IsWithin, moved_tag};
ghost use Rattle.object_meaning.specs.Touches.{lies_in};
ghost use Rattle.src_values.specs.Rests.{MovesWithin};

use object_meaning::Tag;

/// An offset that is moved, if it stays in an object of this size.
pub fn moved_within(size: u64, offset: i64, delta: i64) -> Option<i64>
    requires small { size ≤ 2 ^ 32 }
    requires starts { IsWithin size offset }
    ensures { result ≡ (if lies_in size (offset +ℤ delta) 0 then Some (offset +ℤ delta) else None) }
{
    let moved = offset.checked_add(delta)?;
    if moved < 0 {
        return None;
    }
    if moved > size as i64 {
        return None;
    }
    Some(moved)
}

/// What is known of a pointer that is moved. A bound that no valid pointer has is not asked for.
pub fn moved_tag(tag: Tag, delta: i64) -> Tag
    requires { MovesWithin tag delta }
    ensures { result ≡ moved_tag delta tag }
{
    match tag {
        Tag::Known => Tag::Known,
        Tag::Bound(remaining) => Tag::Bound(remaining - delta),
        Tag::Unknown => Tag::Unknown,
    }
}
