//! Bytes that are read all at once.

ghost use Rattle.std.specs.Prelude.{◌≡◌, ◌+◌, ◌∷◌, [], ◌≤◌, ◌<◌, length, take, drop, map};
ghost use Rattle.std.specs.List.{list_any};
ghost use Rattle.run_meaning.specs.Worlds.{World};
ghost use Rattle.library_meaning.specs.Rows.{run};
ghost use Rattle.library_meaning.specs.Table as table;
ghost use Rattle.library_meaning.specs.Table.{order_of};
ghost use Rattle.object_meaning.specs.Cells.{is_uninit};
ghost use Rattle.object_meaning.specs.OnObjects.{on_objects};
ghost use Rattle.object_meaning.specs.Provenance.{IsPointer};
ghost use Rattle.object_meaning.specs.Touches.{cells_at, reads};
ghost use Rattle.object_meaning.specs.declared.values.Value.TheVariants.{Int, Pointer};
ghost use Rattle.src_values.specs.Room.{IsRoom};
ghost use Rattle.src_lib.specs.Blocks.{is_part, ordered};
ghost use Rattle.src_lib.specs.Does.{Reads};
ghost use Rattle.src_lib.specs.Texts.{byte_in};

use crate::ends::Stop;
use crate::reaches::{Reach, touch_both};
use fc_base::UndefKind;
use object_meaning::{Cell, Value};
use src_values::{Memory, Object, PtrValue};

fn is_uninit(cell: Cell) -> bool
    ensures { result ≡ is_uninit cell }
{
    match cell {
        Cell::Byte(_) => false,
        Cell::Uninit => true,
        Cell::Part { of: _, k: _ } => false,
    }
}

fn is_part(cell: Cell) -> bool
    ensures { result ≡ is_part cell }
{
    match cell {
        Cell::Byte(_) => false,
        Cell::Uninit => false,
        Cell::Part { of: _, k: _ } => true,
    }
}

/// The byte of a cell, or 0 where it has none.
fn byte_in(cell: Cell) -> u8
    ensures { result ≡ byte_in cell }
{
    match cell {
        Cell::Byte(byte) => byte,
        Cell::Uninit => 0,
        Cell::Part { of: _, k: _ } => 0,
    }
}

/// Whether one of so many cells is uninitialised.
fn any_uninit(object: &Object, start: usize, count: usize) -> bool
    requires { start + count ≤ length object.now.cells }
    ensures { result ≡ list_any is_uninit (take count (drop start object.now.cells)) }
{
    let _size = object.size();
    for k in 0..count {
        if is_uninit(object.cell(start + k)) {
            return true;
        }
    }
    false
}

/// Whether one of so many cells is part of a pointer.
fn any_part(object: &Object, start: usize, count: usize) -> bool
    requires { start + count ≤ length object.now.cells }
    ensures { result ≡ list_any is_part (take count (drop start object.now.cells)) }
{
    let _size = object.size();
    for k in 0..count {
        if is_part(object.cell(start + k)) {
            return true;
        }
    }
    false
}

/// -1, 0 or 1 by the first unequal bytes of so many cells of two objects.
fn order(left: &Object, from: usize, right: &Object, at: usize, count: usize) -> u64
    requires left { from + count ≤ length left.now.cells }
    requires right { at + count ≤ length right.now.cells }
    ensures { result ≡ order_of (map byte_in (take count (drop from left.now.cells))) (map byte_in (take count (drop at right.now.cells))) }
{
    let _size = left.size();
    let _other = right.size();
    for k in 0..count {
        let first = byte_in(left.cell(from + k));
        let second = byte_in(right.cell(at + k));
        if first != second {
            return if first < second { u64::MAX } else { 1 };
        }
    }
    0
}

/// The same of cells behind a pointer. There are none behind null.
fn reads_uninit(memory: &Memory, p: PtrValue, count: u64) -> bool
    requires { IsRoom memory.now p 0 count }
    ensures { result ≡ list_any is_uninit (cells_at memory.now (reads p count)) }
{
    let PtrValue::At(place) = p else {
        return false;
    };
    let object = memory.object(place.object);
    let _size = object.size();
    any_uninit(object, place.offset.unsigned_abs() as usize, count as usize)
}

fn reads_part(memory: &Memory, p: PtrValue, count: u64) -> bool
    requires { IsRoom memory.now p 0 count }
    ensures { result ≡ list_any is_part (cells_at memory.now (reads p count)) }
{
    let PtrValue::At(place) = p else {
        return false;
    };
    let object = memory.object(place.object);
    let _size = object.size();
    any_part(object, place.offset.unsigned_abs() as usize, count as usize)
}

fn order_behind(memory: &Memory, a: PtrValue, b: PtrValue, count: u64) -> u64
    requires a { IsRoom memory.now a 0 count }
    requires b { IsRoom memory.now b 0 count }
    ensures { result ≡ order_of (map byte_in (cells_at memory.now (reads a count))) (map byte_in (cells_at memory.now (reads b count))) }
{
    let PtrValue::At(left) = a else {
        return 0;
    };
    let PtrValue::At(right) = b else {
        return 0;
    };
    let first = memory.object(left.object);
    let second = memory.object(right.object);
    let _size = first.size();
    let _other = second.size();
    order(
        first,
        left.offset.unsigned_abs() as usize,
        second,
        right.offset.unsigned_abs() as usize,
        count as usize,
    )
}

/// The order of the bytes behind two pointers, or why they have none.
fn order_of_both(memory: &Memory, a: PtrValue, b: PtrValue, count: u64) -> Result<u64, UndefKind>
    requires a { IsRoom memory.now a 0 count }
    requires b { IsRoom memory.now b 0 count }
    ensures { result ≡ ordered (cells_at memory.now (reads a count)) (cells_at memory.now (reads b count)) }
{
    if reads_uninit(memory, a, count) || reads_uninit(memory, b, count) {
        return Err(UndefKind::Uninitialised);
    }
    if reads_part(memory, a, count) || reads_part(memory, b, count) {
        return Err(UndefKind::PointerBytes);
    }
    Ok(order_behind(memory, a, b, count))
}

/// `memcmp` of `n` bytes (C11 7.24.4.1): -1, 0 or 1 by the first unequal bytes, as unsigned characters. All of them are read, though they
/// differ early.
pub fn memcmp(memory: &Memory, a: PtrValue, b: PtrValue, n: u64) -> Result<Value, Stop>
    requires a { IsPointer memory.now a }
    requires b { IsPointer memory.now b }
    ensures { (w : World) → Reads (Pointer a ∷ Pointer b ∷ Int n ∷ []) w
        (run (on_objects (Pointer a ∷ Pointer b ∷ Int n ∷ [])) table.memcmp memory.now w) memory.now result }
{
    let left = Reach {
        written: false,
        pointer: a,
        offset: 0,
        count: n,
    };
    let right = Reach {
        written: false,
        pointer: b,
        offset: 0,
        count: n,
    };
    match touch_both(memory, left, right) {
        Ok(()) => {}
        Err(kind) => return Err(Stop::Undefined(kind)),
    }
    memory.is_kept();
    match order_of_both(memory, a, b, n) {
        Ok(order) => Ok(Value::Int(order)),
        Err(kind) => Err(Stop::Undefined(kind)),
    }
}
