//! What a call asks for, before it does anything: the size of its destination, and whether it exceeds that.

ghost use Rattle.std.specs.Prelude.{◌≡◌, true};
ghost use Rattle.std.specs.List.{list_any};
ghost use Rattle.run_meaning.specs.Worlds.{World};
ghost use Rattle.object_meaning.specs.LibraryCalls.{lib_request, number_at};
ghost use Rattle.object_meaning.specs.OnObjects.{is_missing, operand, pointer_at};
ghost use Rattle.object_meaning.specs.Provenance.{IsPointer};
ghost use Rattle.src_lib.specs.Requests.{ArePointers, append_asks, asked, check_as, copy_asks, is_built, is_typed, most_of, requested};

use crate::strings::has_ended;
use crate::texts::scan_text;
use c_library::LibFn;
use fc_base::UndefKind;
use object_meaning::Value;
use src_values::{Memory, PtrValue, null};

/// The size of a call's destination, and whether its request exceeds it. A function without a checked form has no limit.
#[derive(Clone, Copy)]
pub struct SizeCheck {
    pub size: u64,
    pub exceeds: bool,
}

/// An argument, or one that was never given.
fn operand(args: &[Value], number: usize) -> Value
    ensures { result ≡ operand args.now number }
{
    match args.get(number) {
        Some(value) => *value,
        None => Value::Uninit,
    }
}

/// A pointer among the arguments.
pub fn pointer_at(args: &[Value], number: usize) -> PtrValue
    ensures { result ≡ pointer_at args.now number }
{
    match operand(args, number) {
        Value::Int(_) => null(),
        Value::Pointer(pointer) => pointer,
        Value::Uninit => null(),
        Value::Nothing => null(),
    }
}

/// A number among the arguments.
pub fn number_at(args: &[Value], number: usize) -> u64
    ensures { result ≡ number_at args.now number }
{
    match operand(args, number) {
        Value::Int(number) => number,
        Value::Pointer(_) => 0,
        Value::Uninit => 0,
        Value::Nothing => 0,
    }
}

fn is_missing(value: Value) -> bool
    ensures { result ≡ is_missing value }
{
    match value {
        Value::Int(_) => false,
        Value::Pointer(_) => false,
        Value::Uninit => true,
        Value::Nothing => true,
    }
}

/// Whether an argument was never given.
fn any_missing(args: &[Value]) -> bool
    ensures { result ≡ list_any is_missing args.now }
{
    for &value in args {
        if is_missing(value) {
            return true;
        }
    }
    false
}

/// Whether `strcpy` would find no NUL in the first bytes that its destination holds.
fn copy_exceeds(memory: &Memory, s: PtrValue, size: u64) -> Result<bool, UndefKind>
    requires { IsPointer memory.now s }
    ensures { result ≡ copy_asks memory.now s size }
{
    match scan_text(memory, s, size, 0) {
        Ok(text) => Ok(!has_ended(text)),
        Err(kind) => Err(kind),
    }
}

/// How much is read of what is appended, where so much is left of the destination.
fn most_of(n: Option<u64>, left: u64) -> u64
    ensures { result ≡ most_of n left }
{
    match n {
        None => left,
        Some(n) => n.min(left),
    }
}

/// Whether the texts of both, of the second at most n bytes, and a NUL are more than the destination holds, or it has no NUL itself.
fn append_exceeds(
    memory: &Memory,
    d: PtrValue,
    s: PtrValue,
    n: Option<u64>,
    size: u64,
) -> Result<bool, UndefKind>
    requires d { IsPointer memory.now d }
    requires s { IsPointer memory.now s }
    ensures { result ≡ append_asks memory.now d s n size }
{
    let head = match scan_text(memory, d, size, 0) {
        Ok(head) => head,
        Err(kind) => return Err(kind),
    };
    if !has_ended(head) {
        return Ok(true);
    }
    match scan_text(memory, s, most_of(n, size - head.len), 0) {
        Ok(tail) => Ok(head.len + tail.len + 1 > size),
        Err(kind) => Err(kind),
    }
}

/// Whether a request exceeds the size of the destination.
fn exceeds(memory: &Memory, f: LibFn, args: &[Value], size: u64) -> Result<bool, UndefKind>
    requires { ArePointers memory.now args.now }
    ensures { result ≡ asked memory.now f args.now size }
{
    match f {
        LibFn::Memcpy
        | LibFn::Memmove
        | LibFn::Mempcpy
        | LibFn::Memset
        | LibFn::Strncpy
        | LibFn::Read => Ok(number_at(args, 2) > size),
        LibFn::Bzero | LibFn::ExplicitBzero | LibFn::Snprintf => Ok(number_at(args, 1) > size),
        LibFn::Strcpy | LibFn::Stpcpy => copy_exceeds(memory, pointer_at(args, 1), size),
        LibFn::Strcat => append_exceeds(
            memory,
            pointer_at(args, 0),
            pointer_at(args, 1),
            None,
            size,
        ),
        LibFn::Strncat => append_exceeds(
            memory,
            pointer_at(args, 0),
            pointer_at(args, 1),
            Some(number_at(args, 2)),
            size,
        ),
        LibFn::Exit
        | LibFn::Abort
        | LibFn::Malloc
        | LibFn::Calloc
        | LibFn::Realloc
        | LibFn::Free
        | LibFn::Memcmp
        | LibFn::Strlen
        | LibFn::Strcmp
        | LibFn::Strchr
        | LibFn::Printf
        | LibFn::Puts
        | LibFn::Putchar
        | LibFn::Dprintf
        | LibFn::Sprintf
        | LibFn::Write
        | LibFn::Getchar
        | LibFn::Note => Ok(false),
    }
}

fn check(memory: &Memory, f: LibFn, args: &[Value]) -> Result<SizeCheck, UndefKind>
    requires { ArePointers memory.now args.now }
    ensures { result ≡ requested memory.now f args.now }
{
    if any_missing(args) {
        return Err(UndefKind::Uninitialised);
    }
    let Some(form) = f.checked_form() else {
        return Ok(SizeCheck {
            size: u64::MAX,
            exceeds: false,
        });
    };
    let destination = pointer_at(args, form.destination);
    if memory.is_dead(destination) {
        return Err(UndefKind::DeadObject);
    }
    let size = memory.size_of(form.mode, destination);
    match exceeds(memory, f, args, size) {
        Ok(exceeds) => Ok(SizeCheck { size, exceeds }),
        Err(kind) => Err(kind),
    }
}

/// A call up to its check: an argument that was never given; for a function with a checked form (glibc's `__memcpy_chk` and its kin) a
/// dead destination, then the size of the destination, the cells that tell the request, and whether it exceeds the size.
pub fn request(memory: &Memory, f: LibFn, args: &[Value]) -> Result<SizeCheck, UndefKind>
    requires built { is_built f ≡ true }
    requires typed { is_typed f args.now ≡ true }
    requires pointers { ArePointers memory.now args.now }
    ensures { (w : World) → check_as result ≡ lib_request f args.now memory.now w }
{
    check(memory, f, args)
}
