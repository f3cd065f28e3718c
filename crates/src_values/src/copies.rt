//! Cells that are copied as they are.

ghost use Rattle.std.specs.Prelude.{◌≡◌, ◌≢◌, ◌+◌, ◌<◌, ◌≤◌, pos, length, map, replicate, take, drop, true, vec_len};
ghost use Rattle.library_meaning.specs.Memory.{put};
ghost use Rattle.object_meaning.specs.Objects.{object_at, is_live, with_cells, put_cells};
ghost use Rattle.object_meaning.specs.declared.values.Cell.TheVariants.{Byte};

use crate::objects::Object;
use crate::table::Objects;
use object_meaning::Cell;
use std::alloc::Global;
use std::mem::replace;

/// Where an operation's bytes begin.
#[derive(Clone, Copy)]
pub struct Spot {
    pub object: u64,
    pub start: u64,
}

/// Copies so many cells within one object, as if all were read before one is put.
fn copy_within(object: &mut Object, to: usize, from: usize, count: usize)
    requires target { to + count ≤ length object.old.cells }
    requires source { from + count ≤ length object.old.cells }
    ensures { object.new ≡ with_cells object.old (put to (take count (drop from object.old.cells)) object.old.cells) }
{
    if to <= from {
        copy_up(object, to, from, count);
    } else {
        copy_down(object, to, from, count);
    }
}

/// The same towards the start of the object, the first cell first.
fn copy_up(object: &mut Object, to: usize, from: usize, count: usize)
    requires before { to ≤ from }
    requires source { from + count ≤ length object.old.cells }
    ensures { object.new ≡ with_cells object.old (put to (take count (drop from object.old.cells)) object.old.cells) }
{
    let _size = object.size();
    for i in 0..count {
        let cell = object.cell(from + i);
        object.put(to + i, cell);
    }
}

/// The same towards its end, the last cell first.
fn copy_down(object: &mut Object, to: usize, from: usize, count: usize)
    requires behind { from < to }
    requires target { to + count ≤ length object.old.cells }
    ensures { object.new ≡ with_cells object.old (put to (take count (drop from object.old.cells)) object.old.cells) }
{
    let _size = object.size();
    let mut left = count;
    while left > 0 {
        left -= 1;
        let cell = object.cell(from + left);
        object.put(to + left, cell);
    }
}

/// Copies so many cells of another object.
fn copy_between(to: &mut Object, at: usize, from: &Object, start: usize, count: usize)
    requires target { at + count ≤ length to.old.cells }
    requires source { start + count ≤ length from.now.cells }
    ensures { to.new ≡ with_cells to.old (put at (take count (drop start from.now.cells)) to.old.cells) }
{
    let _size = to.size();
    let _other = from.size();
    for i in 0..count {
        let cell = from.cell(start + i);
        to.put(at + i, cell);
    }
}

/// Copies so many cells from one place to another, in one object or between two.
pub fn copy_cells(objects: &mut Objects, to: Spot, from: Spot, count: usize, alloc: Global)
    requires target_live { is_live objects.old to.object ≡ true }
    requires source_live { is_live objects.old from.object ≡ true }
    requires target { to.start + count ≤ length (object_at objects.old to.object).cells }
    requires source { from.start + count ≤ length (object_at objects.old from.object).cells }
    ensures { objects.new ≡ put_cells objects.old to.object (pos to.start)
        (take count (drop from.start (object_at objects.old from.object).cells)) }
{
    if to.object == from.object {
        let object = objects.at_mut(to.object);
        copy_within(object, to.start as usize, from.start as usize, count);
    } else {
        let source = replace(objects.at_mut(from.object), Object::stand_in(alloc));
        let target = objects.at_mut(to.object);
        copy_between(
            target,
            to.start as usize,
            &source,
            from.start as usize,
            count,
        );
        let back = objects.at_mut(from.object);
        *back = source;
    }
}

/// Puts bytes, one after the other.
pub fn put_bytes(object: &mut Object, at: usize, bytes: &[u8])
    requires { at + length bytes.now ≤ length object.old.cells }
    ensures { object.new ≡ with_cells object.old (put at (map Byte bytes.now) object.old.cells) }
{
    let _size = object.size();
    for i in 0..bytes.len() {
        object.put(at + i, Cell::Byte(bytes[i]));
    }
}

/// Puts so many of one byte.
pub fn put_same(object: &mut Object, at: usize, byte: u8, count: usize)
    requires { at + count ≤ length object.old.cells }
    ensures { object.new ≡ with_cells object.old (put at (replicate count (Byte byte)) object.old.cells) }
{
    let _size = object.size();
    for i in 0..count {
        object.put(at + i, Cell::Byte(byte));
    }
}
