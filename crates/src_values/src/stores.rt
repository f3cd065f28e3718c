//! Cells that are put into an object.

ghost use Rattle.std.specs.Prelude.{◌≡◌, ◌+◌, ◌≤◌, length, map};
ghost use Rattle.library_meaning.specs.Memory.{put};
ghost use Rattle.object_meaning.specs.Cells.{bytes_of, cells_of, parts_of};
ghost use Rattle.object_meaning.specs.Objects.{with_cells};
ghost use Rattle.object_meaning.specs.declared.values.Cell.TheVariants.{Byte};

use crate::objects::Object;
use object_meaning::{Cell, Ptr, PtrValue};

/// Puts so many bytes of a number, the lowest first.
pub fn store_bytes(object: &mut Object, at: usize, count: usize, number: u64)
    requires { at + count ≤ length object.old.cells }
    ensures { object.new ≡ with_cells object.old (put at (map Byte (bytes_of count number)) object.old.cells) }
{
    if count == 0 {
        return;
    }
    let _size = object.size();
    object.put(at, Cell::Byte((number % 256) as u8));
    store_bytes(object, at + 1, count - 1, number / 256);
}

/// Puts so many parts of a pointer, from the k-th on.
pub fn store_parts(object: &mut Object, at: usize, count: usize, of: Ptr, k: u8)
    requires within { at + count ≤ length object.old.cells }
    requires eight { k + count ≤ 8 }
    ensures { object.new ≡ with_cells object.old (put at (parts_of of k count) object.old.cells) }
{
    if count == 0 {
        return;
    }
    let _size = object.size();
    object.put(at, Cell::Part { of, k });
    store_parts(object, at + 1, count - 1, of, k + 1);
}

/// Puts a pointer, or eight zero bytes for null.
pub fn store_place(object: &mut Object, at: usize, value: PtrValue)
    requires { at + 8 ≤ length object.old.cells }
    ensures { object.new ≡ with_cells object.old (put at (cells_of value) object.old.cells) }
{
    match value {
        PtrValue::Null { claim: _ } => store_bytes(object, at, 8, 0),
        PtrValue::At(place) => store_parts(object, at, 8, place, 0),
    }
}
