//! Texts behind a pointer, byte by byte.

ghost use Rattle.std.specs.Prelude.{◌≡◌, ◌+◌, ◌≤◌, ◌<◌, ◌^◌, length, drop, IfOk, true};
ghost use Rattle.object_meaning.specs.Cells.{byte_at};
ghost use Rattle.object_meaning.specs.Objects.{is_live, object_at, size_at};
ghost use Rattle.object_meaning.specs.Provenance.{IsPointer};
ghost use Rattle.object_meaning.specs.Touches.{cells_from};
ghost use Rattle.src_lib.specs.Texts.{IsShort, cells_of, ends_at, found_of, scanned, text_behind};

use fc_base::UndefKind;
use object_meaning::Cell;
use src_values::{Memory, Object, PtrValue};

/// What a scan has found: how many bytes are before the one that stops it, and that byte, or none where it came to its limit.
#[derive(Clone, Copy)]
pub struct Text {
    pub len: u64,
    pub stop: Option<u8>,
}

/// How many cells were read of a text.
pub fn cells(text: Text) -> u64
    requires { text.len ≤ 2 ^ 32 }
    ensures is { result ≡ cells_of text }
    ensures small { result ≤ 2 ^ 33 }
{
    match text.stop {
        Some(_) => text.len + 1,
        None => text.len,
    }
}

/// The byte of a cell, or why it has none.
pub fn byte_at(cell: Cell) -> Result<u8, UndefKind>
    ensures { result ≡ byte_at cell }
{
    match cell {
        Cell::Byte(byte) => Ok(byte),
        Cell::Uninit => Err(UndefKind::Uninitialised),
        Cell::Part { of: _, k: _ } => Err(UndefKind::PointerBytes),
    }
}

/// Whether a byte ends a scan: the NUL, or the one that is looked for.
fn ends_at(wanted: u8, byte: u8) -> bool
    ensures { result ≡ ends_at wanted byte }
{
    byte == 0 || byte == wanted
}

/// The cells of an object from a place on, up to such a byte, at most so many.
fn scan(object: &Object, start: usize, limit: u64, wanted: u8) -> Result<Text, UndefKind>
    requires { start ≤ length object.now.cells }
    ensures found { scanned wanted limit (drop start object.now.cells) ≡ found_of (drop start object.now.cells) result }
    ensures short { IfOk result (λ t. (t.len ≤ limit) × (t.len ≤ length (drop start object.now.cells))) }
{
    let rest = (object.size() - start) as u64;
    let most = limit.min(rest);
    for k in 0..most {
        match byte_at(object.cell(start + k as usize)) {
            Ok(byte) => {
                if ends_at(wanted, byte) {
                    return Ok(Text {
                        len: k,
                        stop: Some(byte),
                    });
                }
            }
            Err(kind) => return Err(kind),
        }
    }
    if most == limit {
        Ok(Text {
            len: limit,
            stop: None,
        })
    } else {
        Err(UndefKind::OutOfObject)
    }
}

/// The text behind a pointer up to a NUL or another byte, at most so many bytes. A pointer is looked at once a byte is read.
pub fn scan_text(memory: &Memory, at: PtrValue, limit: u64, wanted: u8) -> Result<Text, UndefKind>
    requires { IsPointer memory.now at }
    ensures found { text_behind memory.now at (ends_at wanted) limit ≡ found_of (cells_from memory.now at 0) result }
    ensures short { IfOk result (λ t. IsShort memory.now at limit t) }
{
    if limit == 0 {
        return Ok(Text { len: 0, stop: None });
    }
    if memory.is_dead(at) {
        return Err(UndefKind::DeadObject);
    }
    let PtrValue::At(place) = at else {
        return Err(UndefKind::NullPointer);
    };
    let object = memory.object(place.object);
    let _size = object.size();
    scan(object, place.offset.unsigned_abs() as usize, limit, wanted)
}
