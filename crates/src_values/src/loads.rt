//! What the cells of an object say together.

ghost use Rattle.std.specs.Prelude.{◌≡◌, ◌+◌, ◌<◌, ◌≤◌, suc, length, take, drop, IfOk};
ghost use Rattle.object_meaning.specs.Cells.{pointer_in};
ghost use Rattle.src_values.specs.Numbers.{digit_then, number_in, values_of};

use crate::objects::Object;
use fc_base::UndefKind;
use object_meaning::Cell;

/// The number of so many cells, the lowest first.
pub fn number_at(object: &Object, at: usize, count: usize) -> Result<u64, UndefKind>
    requires few { count ≤ 8 }
    requires within { at + count ≤ length object.now.cells }
    ensures number { result ≡ number_in (take count (drop at object.now.cells)) }
    ensures small { IfOk result (λ n. n < values_of count) }
{
    if count == 0 {
        return Ok(0);
    }
    let _size = object.size();
    let first = object.cell(at);
    let rest = number_at(object, at + 1, count - 1);
    join(first, rest, count - 1)
}

/// One more cell below a number of so many.
fn join(first: Cell, rest: Result<u64, UndefKind>, count: usize) -> Result<u64, UndefKind>
    requires few { count ≤ 7 }
    requires small { IfOk rest (λ n. n < values_of count) }
    ensures number { result ≡ digit_then first rest }
    ensures within { IfOk result (λ n. n < values_of (suc count)) }
{
    match first {
        Cell::Byte(byte) => match rest {
            Ok(number) => Ok(u64::from(byte) + 256 * number),
            Err(kind) => Err(kind),
        },
        Cell::Uninit => Err(UndefKind::Uninitialised),
        Cell::Part { .. } => match rest {
            Ok(_) => Err(UndefKind::PointerBytes),
            Err(kind) => Err(kind),
        },
    }
}
