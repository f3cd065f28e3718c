//! The calls that move bytes by their count.

ghost use Rattle.std.specs.Prelude.{◌≡◌, ◌∷◌, [], IfOk};
ghost use Rattle.run_meaning.specs.Worlds.{World};
ghost use Rattle.library_meaning.specs.Rows.{run};
ghost use Rattle.library_meaning.specs.Table as table;
ghost use Rattle.object_meaning.specs.OnObjects.{behind_pointer, forgotten, on_objects};
ghost use Rattle.object_meaning.specs.Provenance.{IsPointer};
ghost use Rattle.object_meaning.specs.declared.values.Value.TheVariants.{Int, Pointer};
ghost use Rattle.src_values.specs.Numbers.{Changes};
ghost use Rattle.src_lib.specs.Does.{Does};
ghost use Rattle.src_lib.specs.Reaches.{IsBehind};
ghost use Rattle.src_lib.specs.Stores.{copied_apart, filled};

use crate::ends::{Stop, gives};
use crate::reaches::{Reach, apart, touch};
use fc_base::UndefKind;
use object_meaning::Value;
use src_values::{Memory, Ptr, PtrValue, Tag, null};

/// `memmove` of `n` bytes from `s` to `d` (C11 7.24.2.2), as glibc's `__memmove_chk` with the destination's size: gives `d`.
pub fn memmove(
    memory: &mut Memory,
    d: PtrValue,
    s: PtrValue,
    n: u64,
    size: u64,
) -> Result<Value, Stop>
    requires d { IsPointer memory.old d }
    requires s { IsPointer memory.old s }
    ensures { (w : World) → Does (Pointer d ∷ Pointer s ∷ Int n ∷ []) w
        (run (on_objects (Pointer d ∷ Pointer s ∷ Int n ∷ [])) (table.memmove size) memory.old w) memory.old memory.new result }
{
    if n > size {
        return Err(Stop::Overflow);
    }
    gives(memory.copy(d, s, n), Value::Pointer(d))
}

/// `memcpy` (C11 7.24.2.1), as glibc's `__memcpy_chk`: gives `d`.
pub fn memcpy(
    memory: &mut Memory,
    d: PtrValue,
    s: PtrValue,
    n: u64,
    size: u64,
) -> Result<Value, Stop>
    requires d { IsPointer memory.old d }
    requires s { IsPointer memory.old s }
    ensures { (w : World) → Does (Pointer d ∷ Pointer s ∷ Int n ∷ []) w
        (run (on_objects (Pointer d ∷ Pointer s ∷ Int n ∷ [])) (table.memcpy size) memory.old w) memory.old memory.new result }
{
    if n > size {
        return Err(Stop::Overflow);
    }
    gives(copy_apart(memory, d, s, n), Value::Pointer(d))
}

/// glibc's `mempcpy`, as `__mempcpy_chk`: as `memcpy`, but gives the place behind the bytes at `d`, of which nothing is known.
pub fn mempcpy(
    memory: &mut Memory,
    d: PtrValue,
    s: PtrValue,
    n: u64,
    size: u64,
) -> Result<Value, Stop>
    requires d { IsPointer memory.old d }
    requires s { IsPointer memory.old s }
    ensures { (w : World) → Does (Pointer d ∷ Pointer s ∷ Int n ∷ []) w
        (run (on_objects (Pointer d ∷ Pointer s ∷ Int n ∷ [])) (table.mempcpy size) memory.old w) memory.old memory.new result }
{
    if n > size {
        return Err(Stop::Overflow);
    }
    match copy_apart(memory, d, s, n) {
        Ok(()) => Ok(forgot_behind(d, n)),
        Err(kind) => Err(Stop::Undefined(kind)),
    }
}

/// `memset` of `n` bytes to the low byte of `c` (C11 7.24.6.1), as glibc's `__memset_chk`: gives `d`.
pub fn memset(memory: &mut Memory, d: PtrValue, c: u64, n: u64, size: u64) -> Result<Value, Stop>
    requires { IsPointer memory.old d }
    ensures { (w : World) → Does (Pointer d ∷ Int c ∷ Int n ∷ []) w
        (run (on_objects (Pointer d ∷ Int c ∷ Int n ∷ [])) (table.memset size) memory.old w) memory.old memory.new result }
{
    if n > size {
        return Err(Stop::Overflow);
    }
    gives(fill(memory, d, (c % 256) as u8, n), Value::Pointer(d))
}

/// glibc's `bzero` and `explicit_bzero`, as `__explicit_bzero_chk`: `memset` to zero bytes. It gives 0, which its callers don't see.
pub fn bzero(memory: &mut Memory, d: PtrValue, n: u64, size: u64) -> Result<Value, Stop>
    requires { IsPointer memory.old d }
    ensures { (w : World) → Does (Pointer d ∷ Int n ∷ []) w
        (run (on_objects (Pointer d ∷ Int n ∷ [])) (table.bzero size) memory.old w) memory.old memory.new result }
{
    if n > size {
        return Err(Stop::Overflow);
    }
    gives(fill(memory, d, 0, n), Value::Int(0))
}

/// Stores so many of one byte.
fn fill(memory: &mut Memory, d: PtrValue, byte: u8, n: u64) -> Result<(), UndefKind>
    requires { IsPointer memory.old d }
    ensures { Changes (filled memory.old d byte n) memory.old memory.new result }
{
    let reach = Reach {
        written: true,
        pointer: d,
        offset: 0,
        count: n,
    };
    match touch(memory, reach) {
        Ok(()) => {
            memory.put_same(d, 0, byte, n);
            Ok(())
        }
        Err(kind) => Err(kind),
    }
}

/// Copies so many cells between two places that are apart.
fn copy_apart(memory: &mut Memory, d: PtrValue, s: PtrValue, n: u64) -> Result<(), UndefKind>
    requires d { IsPointer memory.old d }
    requires s { IsPointer memory.old s }
    ensures changes { Changes (copied_apart memory.old d s n) memory.old memory.new result }
    ensures room { IfOk result (λ done. IsBehind d n) }
{
    let to = Reach {
        written: true,
        pointer: d,
        offset: 0,
        count: n,
    };
    let from = Reach {
        written: false,
        pointer: s,
        offset: 0,
        count: n,
    };
    match apart(memory, to, from) {
        Ok(()) => memory.copy(d, s, n),
        Err(kind) => Err(kind),
    }
}

/// The place so many bytes behind a pointer, of which nothing is known.
pub fn forgot_behind(p: PtrValue, count: u64) -> Value
    requires { IsBehind p count }
    ensures { result ≡ forgotten (behind_pointer p count) }
{
    match p {
        PtrValue::Null { claim: _ } => {
            if count == 0 {
                Value::Pointer(null())
            } else {
                Value::Uninit
            }
        }
        PtrValue::At(place) => Value::Pointer(PtrValue::At(Ptr {
            object: place.object,
            offset: place.offset + count as i64,
            end: place.end,
            tag: Tag::Unknown,
        })),
    }
}
