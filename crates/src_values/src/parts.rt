//! Pointers in the cells of an object.

ghost use Rattle.std.specs.Prelude.{◌≡◌, ◌+◌, ◌≤◌, length, take, drop};
ghost use Rattle.std.specs.List.{list_any, list_all};
ghost use Rattle.object_meaning.specs.Cells.{pointer_in, same_tag, same_place, is_part, are_parts, is_uninit, is_zero};
ghost use Rattle.src_values.specs.Parts.{pointer_by};

use crate::objects::Object;
use fc_base::UndefKind;
use object_meaning::{Cell, Ptr, PtrValue, Tag};

/// The pointer of eight cells: the eight parts of one in order, or eight zero bytes for null.
pub fn pointer_at(object: &Object, at: usize) -> Result<PtrValue, UndefKind>
    requires { at + 8 ≤ length object.now.cells }
    ensures { result ≡ pointer_in (take 8 (drop at object.now.cells)) }
{
    if any_uninit(object, at, 8) {
        return Err(UndefKind::Uninitialised);
    }
    let first = object.cell(at);
    pointer_by(object, at, first)
}

/// The same, by the first of them, where none is uninitialised.
fn pointer_by(object: &Object, at: usize, first: Cell) -> Result<PtrValue, UndefKind>
    requires { at + 8 ≤ length object.now.cells }
    ensures { result ≡ pointer_by first (take 8 (drop at object.now.cells)) }
{
    match first {
        Cell::Byte(_) => {
            if are_zero(object, at, 8) {
                Ok(PtrValue::Null { claim: None })
            } else {
                Err(UndefKind::PointerBytes)
            }
        }
        Cell::Uninit => Err(UndefKind::PointerBytes),
        Cell::Part { of, k: _ } => {
            if are_parts(object, at, 8, of, 0) {
                Ok(PtrValue::At(Ptr {
                    object: of.object,
                    offset: of.offset,
                    end: of.end,
                    tag: Tag::Unknown,
                }))
            } else {
                Err(UndefKind::PointerBytes)
            }
        }
    }
}

/// Whether one of so many cells is uninitialised.
fn any_uninit(object: &Object, at: usize, count: usize) -> bool
    requires { at + count ≤ length object.now.cells }
    ensures { result ≡ list_any is_uninit (take count (drop at object.now.cells)) }
{
    if count == 0 {
        return false;
    }
    let _size = object.size();
    if is_uninit(object.cell(at)) {
        return true;
    }
    any_uninit(object, at + 1, count - 1)
}

/// Whether so many cells are zero bytes.
fn are_zero(object: &Object, at: usize, count: usize) -> bool
    requires { at + count ≤ length object.now.cells }
    ensures { result ≡ list_all is_zero (take count (drop at object.now.cells)) }
{
    if count == 0 {
        return true;
    }
    let _size = object.size();
    if !is_zero(object.cell(at)) {
        return false;
    }
    are_zero(object, at + 1, count - 1)
}

/// Whether so many cells are the parts of one pointer in order, from the k-th on.
fn are_parts(object: &Object, at: usize, count: usize, of: Ptr, k: u8) -> bool
    requires within { at + count ≤ length object.now.cells }
    requires eight { k + count ≤ 8 }
    ensures { result ≡ are_parts of k (take count (drop at object.now.cells)) }
{
    if count == 0 {
        return true;
    }
    let _size = object.size();
    if !is_part(of, k, object.cell(at)) {
        return false;
    }
    are_parts(object, at + 1, count - 1, of, k + 1)
}

fn is_uninit(cell: Cell) -> bool
    ensures { result ≡ is_uninit cell }
{
    match cell {
        Cell::Uninit => true,
        _ => false,
    }
}

fn is_zero(cell: Cell) -> bool
    ensures { result ≡ is_zero cell }
{
    match cell {
        Cell::Byte(byte) => byte == 0,
        _ => false,
    }
}

/// Whether a cell is the k-th part of a pointer.
fn is_part(of: Ptr, k: u8, cell: Cell) -> bool
    ensures { result ≡ is_part of k cell }
{
    match cell {
        Cell::Part { of: other, k: j } => same_place(of, other) && k == j,
        _ => false,
    }
}

/// Whether two pointers are the same in all that is known of them.
fn same_place(p: Ptr, q: Ptr) -> bool
    ensures { result ≡ same_place p q }
{
    p.object == q.object && (p.offset == q.offset && (p.end == q.end && same_tag(p.tag, q.tag)))
}

fn same_tag(tag: Tag, other: Tag) -> bool
    ensures { result ≡ same_tag tag other }
{
    match tag {
        Tag::Known => matches!(other, Tag::Known),
        Tag::Bound(r) => match other {
            Tag::Bound(s) => r == s,
            _ => false,
        },
        Tag::Unknown => matches!(other, Tag::Unknown),
    }
}
