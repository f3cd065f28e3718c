//! Bytes that one operation touches, and whether that is undefined.

ghost use Rattle.std.specs.Prelude.{◌≡◌, ◌≤◌, ◌^◌, ◌∷◌, [], Ok, pos, ◌+ℤ◌};
ghost use Rattle.object_meaning.specs.Provenance.{IsPointer};
ghost use Rattle.object_meaning.specs.Touches.{is_dead, is_null, is_fixed, lies_in, tested, touch_tests};
ghost use Rattle.src_lib.specs.Reaches.{StartsIn, apart_tests, is_kept, is_nothing, leaves, overlaps, reach_of, touched_both, touched_one};

use fc_base::UndefKind;
use print_texts::meets;
use src_values::{Memory, PtrValue};

/// Bytes that an operation reads or writes: so many, from so far behind a pointer on.
#[derive(Clone, Copy)]
pub struct Reach {
    pub written: bool,
    pub pointer: PtrValue,
    pub offset: u64,
    pub count: u64,
}

/// Whether so many bytes from a place on lie in an object of this size.
fn fits(size: u64, start: u64, count: u64) -> bool
    ensures { result ≡ lies_in size (pos start) count }
{
    start <= size && count <= size - start
}

/// Whether so many bytes, so far behind an offset, lie in an object of this size.
fn lies_in(size: u64, offset: i64, behind: u64, count: u64) -> bool
    ensures { result ≡ lies_in size (offset +ℤ pos behind) count }
{
    let start = offset.unsigned_abs();
    if offset < 0 {
        start <= behind && fits(size, behind - start, count)
    } else {
        start <= size && fits(size - start, behind, count)
    }
}

pub fn is_null(p: PtrValue) -> bool
    ensures { result ≡ is_null p }
{
    match p {
        PtrValue::Null { claim: _ } => true,
        PtrValue::At(_) => false,
    }
}

/// Whether null is touched.
fn is_nothing(reach: Reach) -> bool
    ensures { result ≡ is_nothing reach }
{
    is_null(reach.pointer) && reach.count > 0
}

/// Whether a byte lies outside its object.
fn leaves(memory: &Memory, reach: Reach) -> bool
    ensures { result ≡ leaves memory.now reach }
{
    match reach.pointer {
        PtrValue::Null { claim: _ } => false,
        PtrValue::At(place) => !lies_in(
            memory.object_size(place.object),
            place.offset,
            reach.offset,
            reach.count,
        ),
    }
}

/// Whether a pointer is to an object that may not be written.
fn is_fixed(memory: &Memory, p: PtrValue) -> bool
    ensures { result ≡ is_fixed memory.now p }
{
    match p {
        PtrValue::Null { claim: _ } => false,
        PtrValue::At(place) => !memory.is_writable(place.object),
    }
}

/// Whether a byte would be written that may not be.
fn is_kept(memory: &Memory, reach: Reach) -> bool
    ensures { result ≡ is_kept memory.now reach }
{
    reach.written && is_fixed(memory, reach.pointer) && reach.count > 0
}

fn test_one(memory: &Memory, reach: Reach) -> Result<(), UndefKind>
    ensures { result ≡ touched_one memory.now reach }
{
    if memory.is_dead(reach.pointer) {
        return Err(UndefKind::DeadObject);
    }
    if is_nothing(reach) {
        return Err(UndefKind::NullPointer);
    }
    if leaves(memory, reach) {
        return Err(UndefKind::OutOfObject);
    }
    if is_kept(memory, reach) {
        return Err(UndefKind::ReadOnly);
    }
    Ok(())
}

fn test_both(memory: &Memory, first: Reach, second: Reach) -> Result<(), UndefKind>
    ensures { result ≡ touched_both memory.now first second }
{
    if memory.is_dead(first.pointer) || memory.is_dead(second.pointer) {
        return Err(UndefKind::DeadObject);
    }
    if is_nothing(first) || is_nothing(second) {
        return Err(UndefKind::NullPointer);
    }
    if leaves(memory, first) || leaves(memory, second) {
        return Err(UndefKind::OutOfObject);
    }
    if is_kept(memory, first) || is_kept(memory, second) {
        return Err(UndefKind::ReadOnly);
    }
    Ok(())
}

/// Whether one operation may touch these bytes, or why it is undefined.
pub fn touch(memory: &Memory, reach: Reach) -> Result<(), UndefKind>
    ensures { result ≡ tested (touch_tests memory.now (reach_of reach ∷ [])) (Ok tt) }
{
    test_one(memory, reach)
}

/// Whether one operation may touch these bytes and those.
pub fn touch_both(memory: &Memory, first: Reach, second: Reach) -> Result<(), UndefKind>
    ensures { result ≡ tested (touch_tests memory.now (reach_of first ∷ reach_of second ∷ [])) (Ok tt) }
{
    test_both(memory, first, second)
}

/// Whether bytes that are stored overlap bytes that are read.
fn overlaps(to: Reach, from: Reach) -> bool
    requires target { StartsIn to.offset to.pointer }
    requires source { StartsIn from.offset from.pointer }
    ensures { result ≡ overlaps to from }
{
    let PtrValue::At(target) = to.pointer else {
        return false;
    };
    let PtrValue::At(source) = from.pointer else {
        return false;
    };
    let first = target.offset.unsigned_abs() + to.offset;
    let second = source.offset.unsigned_abs() + from.offset;
    target.object == source.object && meets(first, to.count, second, from.count)
}

/// Whether bytes may be stored that are made of what is read: all may be touched, and none of those is one of these.
pub fn apart(memory: &Memory, to: Reach, from: Reach) -> Result<(), UndefKind>
    requires target { IsPointer memory.now to.pointer }
    requires source { IsPointer memory.now from.pointer }
    requires behind { to.offset ≤ 2 ^ 32 }
    requires before { from.offset ≤ 2 ^ 32 }
    ensures { result ≡ tested (apart_tests memory.now to from) (Ok tt) }
{
    match touch_both(memory, to, from) {
        Ok(()) => {
            if overlaps(to, from) {
                Err(UndefKind::Overlap)
            } else {
                Ok(())
            }
        }
        Err(kind) => Err(kind),
    }
}
