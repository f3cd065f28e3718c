//! Texts that are compared.

ghost use Rattle.std.specs.Prelude.{◌≡◌, ◌&&◌, ◌∷◌, [], ◌≤◌, ◌<◌, length, drop};
ghost use Rattle.fc_base.specs.declared.undefined.UndefKind.TheVariants as undefined;
ghost use Rattle.run_meaning.specs.Worlds.{World};
ghost use Rattle.library_meaning.specs.Rows.{run};
ghost use Rattle.library_meaning.specs.Scan.{scan_both};
ghost use Rattle.library_meaning.specs.Table as table;
ghost use Rattle.library_meaning.specs.Table.{order};
ghost use Rattle.object_meaning.specs.Cells.{byte_at};
ghost use Rattle.object_meaning.specs.OnObjects.{on_objects};
ghost use Rattle.object_meaning.specs.Provenance.{IsPointer};
ghost use Rattle.object_meaning.specs.declared.values.Value.TheVariants.{Pointer};
ghost use Rattle.src_lib.specs.Does.{Reads};
ghost use Rattle.src_lib.specs.Pairs.{both_behind, goes_on, pair_at, pairs_of};

use crate::ends::Stop;
use crate::texts::byte_at;
use fc_base::UndefKind;
use object_meaning::{Cell, Value};
use src_values::{Memory, Object, PtrValue};

/// Two bytes of two texts.
#[derive(Clone, Copy)]
struct Pair {
    left: u8,
    right: u8,
}

/// The bytes of two cells, or why the first that has none has none.
fn pair_at(left: Cell, right: Cell) -> Result<Pair, UndefKind>
    ensures { result ≡ pair_at left right }
{
    match byte_at(left) {
        Ok(left) => match byte_at(right) {
            Ok(right) => Ok(Pair { left, right }),
            Err(kind) => Err(kind),
        },
        Err(kind) => Err(kind),
    }
}

/// Whether a comparison goes on behind two bytes.
fn goes_on(pair: Pair) -> bool
    ensures { result ≡ goes_on pair }
{
    pair.left == pair.right && pair.left != 0
}

/// The two last bytes that a comparison reads, of an object from a place on and of another.
fn compare(left: &Object, from: usize, right: &Object, at: usize) -> Result<Pair, UndefKind>
    requires left { from ≤ length left.now.cells }
    requires right { at ≤ length right.now.cells }
    ensures { pairs_of result ≡ scan_both byte_at undefined.OutOfObject (drop from left.now.cells) (drop at right.now.cells) }
{
    let size = left.size() - from;
    let most = size.min(right.size() - at);
    for k in 0..most {
        match pair_at(left.cell(from + k), right.cell(at + k)) {
            Ok(pair) => {
                if !goes_on(pair) {
                    return Ok(pair);
                }
            }
            Err(kind) => return Err(kind),
        }
    }
    if most < size {
        match byte_at(left.cell(from + most)) {
            Ok(_) => Err(UndefKind::OutOfObject),
            Err(kind) => Err(kind),
        }
    } else {
        Err(UndefKind::OutOfObject)
    }
}

/// The two last bytes that a comparison reads behind two pointers.
fn compare_texts(memory: &Memory, a: PtrValue, b: PtrValue) -> Result<Pair, UndefKind>
    requires a { IsPointer memory.now a }
    requires b { IsPointer memory.now b }
    ensures { pairs_of result ≡ both_behind memory.now a b }
{
    if memory.is_dead(a) || memory.is_dead(b) {
        return Err(UndefKind::DeadObject);
    }
    let PtrValue::At(left) = a else {
        return Err(UndefKind::NullPointer);
    };
    let PtrValue::At(right) = b else {
        return Err(UndefKind::NullPointer);
    };
    let first = memory.object(left.object);
    let second = memory.object(right.object);
    let _size = first.size();
    let _other = second.size();
    compare(
        first,
        left.offset.unsigned_abs() as usize,
        second,
        right.offset.unsigned_abs() as usize,
    )
}

/// -1, 0 or 1 by two bytes.
fn order(left: u8, right: u8) -> u64
    ensures { result ≡ order left right }
{
    if left < right {
        u64::MAX
    } else if right < left {
        1
    } else {
        0
    }
}

/// `strcmp` (C11 7.24.4.2): -1, 0 or 1 by the first unequal bytes, as unsigned characters, up to a NUL.
pub fn strcmp(memory: &Memory, a: PtrValue, b: PtrValue) -> Result<Value, Stop>
    requires a { IsPointer memory.now a }
    requires b { IsPointer memory.now b }
    ensures { (w : World) → Reads (Pointer a ∷ Pointer b ∷ []) w
        (run (on_objects (Pointer a ∷ Pointer b ∷ [])) table.strcmp memory.now w) memory.now result }
{
    match compare_texts(memory, a, b) {
        Ok(pair) => Ok(Value::Int(order(pair.left, pair.right))),
        Err(kind) => Err(Stop::Undefined(kind)),
    }
}
