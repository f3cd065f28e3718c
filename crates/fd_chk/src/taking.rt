//! Calls that take bytes from standard input.

ghost use Rattle.std.specs.Prelude.{◌≡◌, ◌∷◌, ℕ, ◌+◌, ◌^◌, ◌<◌, ◌≤◌, List, [], length, Some, IfOk, OnErr};
ghost use Rattle.run_meaning.specs.Objects.{stream};
ghost use Rattle.library_meaning.specs.Rows.{run};
ghost use Rattle.library_meaning.specs.Table as table;
ghost use Rattle.library_meaning.specs.OnBytes.{on_bytes};
ghost use Rattle.library_meaning.specs.Memory.{memory_size};
ghost use Rattle.library_meaning.specs.OnStreams.{TakesAs};
ghost use Rattle.fd_chk.specs.Taken.{TookTo, FailedBefore};

use fc_base::{Failed, Source};
use host_bytes::is_valid;
use library_meaning::HostStop;

/// How many bytes are taken at once. They go through a part of the stack, since a source may change all of the bytes that it
/// is handed.
const MOST: usize = 4096;

/// `getchar` (C11 7.21.7.6): the next byte, or -1 at the end. `InputFault` where the source failed.
pub fn getchar_c<I: Source>(input: &mut I) -> Result<u64, HostStop>
    ensures row { (memory : List ℕ) → TakesAs [] (λ m. run (on_bytes []) table.getchar m) (memory, memory) result
        (stream (I.left input.old) (I.count input.old)) (stream (I.left input.new) (I.count input.new)) }
    ensures grew { I.count input.old ≤ I.count input.new }
{
    let mut held = [0; 1];
    match input.read(&mut held) {
        Ok(0) => Ok(u64::MAX),
        Ok(_) => Ok(character(held[0])),
        Err(_) => Err(HostStop::InputFault),
    }
}

/// A byte as C's functions give it, an unsigned character converted to an int (C11 7.21.7.6).
fn character(byte: u8) -> u64
    ensures same { result ≡ byte }
    ensures small { result < 2 ^ 8 }
{
    u64::from(byte)
}

/// POSIX's `read` of at most `n` bytes to `d`, as glibc's `__read_chk`: gives how many there were, fewer than `n` only at the end.
/// `Overflow` where `n` is over `size`; `BadAddress` where one of the bytes has no valid address, and then none is taken;
/// `InputFault` where the source failed.
pub fn read_c<I: Source>(
    mem: &mut [u8],
    input: &mut I,
    d: u64,
    n: u64,
    size: u64,
) -> Result<u64, HostStop>
    requires { length mem.old ≡ memory_size }
    ensures row { TakesAs (0 ∷ d ∷ n ∷ []) (λ m. run (on_bytes (0 ∷ d ∷ n ∷ [])) (table.read size) m) (mem.old, mem.new) result
        (stream (I.left input.old) (I.count input.old)) (stream (I.left input.new) (I.count input.new)) }
    ensures grew { I.count input.old ≤ I.count input.new }
{
    if n > size {
        return Err(HostStop::Overflow);
    }
    if !is_valid(d, n) {
        return Err(HostStop::BadAddress);
    }
    if n == 0 {
        return Ok(0);
    }
    match take_to(mem, input, d as usize, n as usize) {
        Ok(count) => Ok(count as u64),
        Err(Failed) => Err(HostStop::InputFault),
    }
}

/// Takes bytes and stores them from the address on, as many as `most` or as there are.
fn take_to<I: Source>(
    mem: &mut [u8],
    input: &mut I,
    at: usize,
    most: usize,
) -> Result<usize, Failed>
    requires { at + most ≤ length mem.old }
    ensures bound { IfOk result (λ n. n ≤ most) }
    ensures took { IfOk result (λ n. TookTo at n mem.old mem.new
        (stream (I.left input.old) (I.count input.old)) (stream (I.left input.new) (I.count input.new))) }
    ensures end { IfOk result (λ n. n < most → I.left input.new ≡ Some []) }
    ensures failed { OnErr result (FailedBefore most
        (stream (I.left input.old) (I.count input.old)) (stream (I.left input.new) (I.count input.new))) }
    ensures grew { I.count input.old ≤ I.count input.new }
{
    let mut count = 0;
    while count < most {
        match take_some(mem, input, at + count, most - count) {
            Ok(0) => return Ok(count),
            Ok(more) => count += more,
            Err(Failed) => return Err(Failed),
        }
    }
    Ok(count)
}

/// Takes some bytes and stores them from the address on, none only at the end.
fn take_some<I: Source>(
    mem: &mut [u8],
    input: &mut I,
    at: usize,
    most: usize,
) -> Result<usize, Failed>
    requires some { 0 < most }
    requires room { at + most ≤ length mem.old }
    ensures bound { IfOk result (λ n. n ≤ most) }
    ensures took { IfOk result (λ n. TookTo at n mem.old mem.new
        (stream (I.left input.old) (I.count input.old)) (stream (I.left input.new) (I.count input.new))) }
    ensures end { IfOk result (λ n. n ≡ 0 → I.left input.new ≡ Some []) }
    ensures failed { OnErr result (FailedBefore most
        (stream (I.left input.old) (I.count input.old)) (stream (I.left input.new) (I.count input.new))) }
    ensures grew { I.count input.old ≤ I.count input.new }
{
    let mut held = [0; MOST];
    let asked = most.min(MOST);
    match input.read(&mut held[..asked]) {
        Ok(n) => {
            mem[at..at + n].copy_from_slice(&held[..n]);
            Ok(n)
        }
        Err(Failed) => Err(Failed),
    }
}
