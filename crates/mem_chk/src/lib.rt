//! The calls of the library that move bytes by their count.
#![tactic(auto)]

ghost use Rattle.std.specs.Prelude.{◌≡◌, ◌∷◌, [], length};
ghost use Rattle.library_meaning.specs.Rows.{run};
ghost use Rattle.library_meaning.specs.Table as table;
ghost use Rattle.library_meaning.specs.OnBytes.{on_bytes, Does, Reads, quiet};
ghost use Rattle.library_meaning.specs.Memory.{memory_size};

use host_bytes::{compare, copy, fill, is_valid};
use library_meaning::HostStop;

/// `memmove` of `n` bytes from `s` to `d` (C11 7.24.2.2), as glibc's `__memmove_chk` with the destination's size: gives `d`.
/// `Overflow` where `n` is over `size`; `BadAddress` where a byte of either has no valid address.
pub fn memmove_c(mem: &mut [u8], d: u64, s: u64, n: u64, size: u64) -> Result<u64, HostStop>
    requires { length mem.old ≡ memory_size }
    ensures { Does (d ∷ s ∷ n ∷ []) (run (on_bytes (d ∷ s ∷ n ∷ [])) (table.memmove size) mem.old quiet) mem.old mem.new result }
{
    if n > size {
        return Err(HostStop::Overflow);
    }
    if !(is_valid(d, n) && is_valid(s, n)) {
        return Err(HostStop::BadAddress);
    }
    copy(mem, d, s, n);
    Ok(d)
}

/// `memcpy` (C11 7.24.2.1), as glibc's `__memcpy_chk`. Where the bytes overlap, which C leaves undefined, it is `memmove_c`, since
/// a call that copies acts as if it read all its bytes before it stores one.
pub fn memcpy_c(mem: &mut [u8], d: u64, s: u64, n: u64, size: u64) -> Result<u64, HostStop>
    requires { length mem.old ≡ memory_size }
    ensures { Does (d ∷ s ∷ n ∷ []) (run (on_bytes (d ∷ s ∷ n ∷ [])) (table.memcpy size) mem.old quiet) mem.old mem.new result }
{
    memmove_c(mem, d, s, n, size)
}

/// glibc's `mempcpy`, as `__mempcpy_chk`: as `memcpy_c`, but gives the address behind the bytes at `d`.
pub fn mempcpy_c(mem: &mut [u8], d: u64, s: u64, n: u64, size: u64) -> Result<u64, HostStop>
    requires { length mem.old ≡ memory_size }
    ensures { Does (d ∷ s ∷ n ∷ []) (run (on_bytes (d ∷ s ∷ n ∷ [])) (table.mempcpy size) mem.old quiet) mem.old mem.new result }
{
    match memmove_c(mem, d, s, n, size) {
        Ok(start) => Ok(start + n),
        Err(stop) => Err(stop),
    }
}

/// `memset` of `n` bytes to the low byte of `c` (C11 7.24.6.1), as glibc's `__memset_chk`: gives `d`. `Overflow` where `n` is
/// over `size`; `BadAddress` where one of the bytes has no valid address.
pub fn memset_c(mem: &mut [u8], d: u64, c: u64, n: u64, size: u64) -> Result<u64, HostStop>
    requires { length mem.old ≡ memory_size }
    ensures { Does (d ∷ c ∷ n ∷ []) (run (on_bytes (d ∷ c ∷ n ∷ [])) (table.memset size) mem.old quiet) mem.old mem.new result }
{
    if size < n {
        return Err(HostStop::Overflow);
    }
    if !is_valid(d, n) {
        return Err(HostStop::BadAddress);
    }
    fill(mem, d, (c % 256) as u8, n);
    Ok(d)
}

/// glibc's `bzero` and `explicit_bzero`, as `__explicit_bzero_chk`: `memset_c` with zero bytes, but gives 0.
pub fn bzero_c(mem: &mut [u8], d: u64, n: u64, size: u64) -> Result<u64, HostStop>
    requires { length mem.old ≡ memory_size }
    ensures { Does (d ∷ n ∷ []) (run (on_bytes (d ∷ n ∷ [])) (table.bzero size) mem.old quiet) mem.old mem.new result }
{
    match memset_c(mem, d, 0, n, size) {
        Ok(_) => Ok(0),
        Err(stop) => Err(stop),
    }
}

/// `memcmp` of `n` bytes (C11 7.24.4.1): -1, 0 or 1 by the first unequal bytes, as unsigned characters. `BadAddress` where a
/// byte of either has no valid address, though they differ before it.
pub fn memcmp_c(mem: &[u8], a: u64, b: u64, n: u64) -> Result<u64, HostStop>
    requires { length mem.now ≡ memory_size }
    ensures { Reads (a ∷ b ∷ n ∷ []) (run (on_bytes (a ∷ b ∷ n ∷ [])) table.memcmp mem.now quiet) mem.now result }
{
    if !(is_valid(a, n) && is_valid(b, n)) {
        return Err(HostStop::BadAddress);
    }
    if n == 0 {
        return Ok(0);
    }
    let count = n as usize;
    let left = a as usize;
    let right = b as usize;
    Ok(compare(&mem[left..left + count], &mem[right..right + count]))
}
