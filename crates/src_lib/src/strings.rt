//! The calls that go up to a NUL.

ghost use Rattle.std.specs.Prelude.{◌≡◌, ℕ, ◌+◌, ◌∷◌, [], ◌≤◌, ◌<◌, ◌^◌, List, IfOk, is_some};
ghost use Rattle.run_meaning.specs.Worlds.{World};
ghost use Rattle.library_meaning.specs.Rows.{Given, run};
ghost use Rattle.library_meaning.specs.Table as table;
ghost use Rattle.object_meaning.specs.OnObjects.{on_objects};
ghost use Rattle.object_meaning.specs.Provenance.{IsPointer};
ghost use Rattle.object_meaning.specs.declared.values.Value.{Value as PlainValue};
ghost use Rattle.object_meaning.specs.declared.values.Value.TheVariants.{Int, Pointer};
ghost use Rattle.src_values.specs.Numbers.{Changes};
ghost use Rattle.src_lib.specs.Does.{Does, GivesWith, Reads};
ghost use Rattle.src_lib.specs.Reaches.{IsBehind, pointed, touched_for};
ghost use Rattle.src_lib.specs.Stores.{text_put};
ghost use Rattle.src_lib.specs.Texts.{place_value};

use crate::copies::forgot_behind;
use crate::ends::{Stop, gives};
use crate::reaches::{Reach, apart, is_null};
use crate::texts::{Text, cells, scan_text};
use fc_base::UndefKind;
use object_meaning::Value;
use src_values::{Memory, PtrValue, null};

/// `strlen` (C11 7.24.6.3): how many bytes stand before the NUL.
pub fn strlen(memory: &Memory, s: PtrValue) -> Result<Value, Stop>
    requires { IsPointer memory.now s }
    ensures { (w : World) → Reads (Pointer s ∷ []) w
        (run (on_objects (Pointer s ∷ [])) table.strlen memory.now w) memory.now result }
{
    match scan_text(memory, s, u64::MAX, 0) {
        Ok(text) => Ok(Value::Int(text.len)),
        Err(kind) => Err(Stop::Undefined(kind)),
    }
}

/// Stores the bytes of a text behind a pointer, and so many zero bytes behind them, apart from what was read of it.
fn put_text(
    memory: &mut Memory,
    to: PtrValue,
    offset: u64,
    from: PtrValue,
    text: Text,
    zeros: u64,
) -> Result<(), UndefKind>
    requires target { IsPointer memory.old to }
    requires source { IsPointer memory.old from }
    requires behind { offset ≤ 2 ^ 32 }
    requires short { text.len ≤ 2 ^ 32 }
    requires sum { text.len + zeros < 2 ^ 64 }
    ensures changes { Changes (text_put memory.old to offset from text zeros) memory.old memory.new result }
    ensures behind { IfOk result (λ done. IsBehind to text.len) }
{
    let written = Reach {
        written: true,
        pointer: to,
        offset,
        count: text.len + zeros,
    };
    let read = Reach {
        written: false,
        pointer: from,
        offset: 0,
        count: cells(text),
    };
    match apart(memory, written, read) {
        Ok(()) => {
            memory.put_text(to, offset, from, text.len, zeros);
            Ok(())
        }
        Err(kind) => Err(kind),
    }
}

/// Looks at the two pointers of a call, and at those of them that it touches.
pub fn point(
    memory: &Memory,
    d: PtrValue,
    s: PtrValue,
    writes: bool,
    reads: bool,
) -> Result<(), UndefKind>
    ensures { result ≡ pointed memory.now d s writes reads }
{
    if memory.is_dead(d) || memory.is_dead(s) {
        return Err(UndefKind::DeadObject);
    }
    if writes && is_null(d) || reads && is_null(s) {
        return Err(UndefKind::NullPointer);
    }
    Ok(())
}

/// Whether a scan came to a byte that ends it, before its limit.
pub fn has_ended(text: Text) -> bool
    ensures { result ≡ is_some text.stop }
{
    text.stop.is_some()
}

/// Copies a text with its NUL, as `strcpy` does, and tells its length.
fn copy_text(memory: &mut Memory, d: PtrValue, s: PtrValue, size: u64) -> Result<u64, Stop>
    requires d { IsPointer memory.old d }
    requires s { IsPointer memory.old s }
    ensures behind { IfOk result (λ k. IsBehind d k) }
    ensures gives { (given : ℕ → Given) (w : World) → GivesWith given w
        (run (on_objects (Pointer d ∷ Pointer s ∷ [])) (table.strcpy_giving given size) memory.old w) memory.old memory.new result }
{
    let found = match scan_text(memory, s, size, 0) {
        Ok(found) => found,
        Err(kind) => return Err(Stop::Undefined(kind)),
    };
    if !has_ended(found) {
        return Err(Stop::Overflow);
    }
    match point(memory, d, s, true, true) {
        Ok(()) => {}
        Err(kind) => return Err(Stop::Undefined(kind)),
    }
    match put_text(memory, d, 0, s, found, 1) {
        Ok(()) => Ok(found.len),
        Err(kind) => Err(Stop::Undefined(kind)),
    }
}

/// `strcpy` (C11 7.24.2.3), as glibc's `__strcpy_chk`: gives `d`.
pub fn strcpy(memory: &mut Memory, d: PtrValue, s: PtrValue, size: u64) -> Result<Value, Stop>
    requires d { IsPointer memory.old d }
    requires s { IsPointer memory.old s }
    ensures { (w : World) → Does (Pointer d ∷ Pointer s ∷ []) w
        (run (on_objects (Pointer d ∷ Pointer s ∷ [])) (table.strcpy size) memory.old w) memory.old memory.new result }
{
    match copy_text(memory, d, s, size) {
        Ok(_) => Ok(Value::Pointer(d)),
        Err(stop) => Err(stop),
    }
}

/// POSIX's `stpcpy`, as glibc's `__stpcpy_chk`: as `strcpy`, but gives the place of the NUL behind `d`, of which nothing is known.
pub fn stpcpy(memory: &mut Memory, d: PtrValue, s: PtrValue, size: u64) -> Result<Value, Stop>
    requires d { IsPointer memory.old d }
    requires s { IsPointer memory.old s }
    ensures { (w : World) → Does (Pointer d ∷ Pointer s ∷ []) w
        (run (on_objects (Pointer d ∷ Pointer s ∷ [])) (table.stpcpy size) memory.old w) memory.old memory.new result }
{
    match copy_text(memory, d, s, size) {
        Ok(len) => Ok(forgot_behind(d, len)),
        Err(stop) => Err(stop),
    }
}

/// `strncpy` (C11 7.24.2.4), as glibc's `__strncpy_chk`: gives `d`.
pub fn strncpy(
    memory: &mut Memory,
    d: PtrValue,
    s: PtrValue,
    n: u64,
    size: u64,
) -> Result<Value, Stop>
    requires d { IsPointer memory.old d }
    requires s { IsPointer memory.old s }
    ensures { (w : World) → Does (Pointer d ∷ Pointer s ∷ Int n ∷ []) w
        (run (on_objects (Pointer d ∷ Pointer s ∷ Int n ∷ [])) (table.strncpy size) memory.old w) memory.old memory.new result }
{
    if n > size {
        return Err(Stop::Overflow);
    }
    match point(memory, d, s, n > 0, n > 0) {
        Ok(()) => {}
        Err(kind) => return Err(Stop::Undefined(kind)),
    }
    match scan_text(memory, s, n, 0) {
        Ok(found) => gives(
            put_text(memory, d, 0, s, found, n - found.len),
            Value::Pointer(d),
        ),
        Err(kind) => Err(Stop::Undefined(kind)),
    }
}

/// Appends at most `most` bytes of `s`, and a NUL, behind the first `k` bytes of `d`. Null is a text of which nothing is read, where
/// `reads` is not set.
fn append(
    memory: &mut Memory,
    d: PtrValue,
    s: PtrValue,
    k: u64,
    most: u64,
    size: u64,
    reads: bool,
) -> Result<Value, Stop>
    requires d { IsPointer memory.old d }
    requires s { IsPointer memory.old s }
    requires small { k ≤ 2 ^ 32 }
    ensures { (rest : List PlainValue) (w : World) → Does (Pointer d ∷ Pointer s ∷ rest) w
        (run (on_objects (Pointer d ∷ Pointer s ∷ rest)) (table.appended (touched_for reads) size k most) memory.old w)
        memory.old memory.new result }
{
    let tail = match scan_text(memory, s, most, 0) {
        Ok(tail) => tail,
        Err(kind) => return Err(Stop::Undefined(kind)),
    };
    if k + tail.len + 1 > size {
        return Err(Stop::Overflow);
    }
    match point(memory, d, s, true, reads) {
        Ok(()) => {}
        Err(kind) => return Err(Stop::Undefined(kind)),
    }
    gives(put_text(memory, d, k, s, tail, 1), Value::Pointer(d))
}

/// `strcat` (C11 7.24.3.1), as glibc's `__strcat_chk`: gives `d`.
pub fn strcat(memory: &mut Memory, d: PtrValue, s: PtrValue, size: u64) -> Result<Value, Stop>
    requires d { IsPointer memory.old d }
    requires s { IsPointer memory.old s }
    ensures { (w : World) → Does (Pointer d ∷ Pointer s ∷ []) w
        (run (on_objects (Pointer d ∷ Pointer s ∷ [])) (table.strcat size) memory.old w) memory.old memory.new result }
{
    let head = match scan_text(memory, d, size, 0) {
        Ok(head) => head,
        Err(kind) => return Err(Stop::Undefined(kind)),
    };
    if !has_ended(head) {
        return Err(Stop::Overflow);
    }
    append(memory, d, s, head.len, size - head.len, size, true)
}

/// `strncat` of at most `n` bytes (C11 7.24.3.2), as glibc's `__strncat_chk`: gives `d`.
pub fn strncat(
    memory: &mut Memory,
    d: PtrValue,
    s: PtrValue,
    n: u64,
    size: u64,
) -> Result<Value, Stop>
    requires d { IsPointer memory.old d }
    requires s { IsPointer memory.old s }
    ensures { (w : World) → Does (Pointer d ∷ Pointer s ∷ Int n ∷ []) w
        (run (on_objects (Pointer d ∷ Pointer s ∷ Int n ∷ [])) (table.strncat size) memory.old w) memory.old memory.new result }
{
    let head = match scan_text(memory, d, size, 0) {
        Ok(head) => head,
        Err(kind) => return Err(Stop::Undefined(kind)),
    };
    if !has_ended(head) {
        return Err(Stop::Overflow);
    }
    let most = n.min(size - head.len);
    append(memory, d, s, head.len, most, size, n > 0)
}

/// `strchr` (C11 7.24.5.2): the place of the first byte `c`, as an unsigned character, up to and with the NUL, of which nothing is known,
/// or null.
pub fn strchr(memory: &Memory, s: PtrValue, c: u64) -> Result<Value, Stop>
    requires { IsPointer memory.now s }
    ensures { (w : World) → Reads (Pointer s ∷ Int c ∷ []) w
        (run (on_objects (Pointer s ∷ Int c ∷ [])) table.strchr memory.now w) memory.now result }
{
    let wanted = (c % 256) as u8;
    match scan_text(memory, s, u64::MAX, wanted) {
        Ok(found) => Ok(place_of(s, found, wanted)),
        Err(kind) => Err(Stop::Undefined(kind)),
    }
}

/// The place where a scan for a byte came to it, or null where it came to another one.
fn place_of(s: PtrValue, found: Text, wanted: u8) -> Value
    requires { IsBehind s found.len }
    ensures { result ≡ place_value s found wanted }
{
    match found.stop {
        Some(byte) => {
            if byte == wanted {
                forgot_behind(s, found.len)
            } else {
                Value::Pointer(null())
            }
        }
        None => Value::Pointer(null()),
    }
}
