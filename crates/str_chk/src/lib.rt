//! The calls of the library that go up to a NUL.
#![tactic(auto)]

ghost use Rattle.std.specs.Prelude.{◌≡◌, ℕ, ◌+◌, ◌≤◌, ◌∷◌, ◌++◌, [], true, length, List};
ghost use Rattle.library_meaning.specs.Rows.{run};
ghost use Rattle.library_meaning.specs.Table as table;
ghost use Rattle.library_meaning.specs.OnBytes.{on_bytes, Does, Reads, quiet};
ghost use Rattle.library_meaning.specs.Memory.{are_valid, memory_size};
ghost use Rattle.str_chk.specs.Pairs.{both_scan, order_found, order_or};

mod blocks;

use crate::blocks::{BLOCK, compare_blocks};
use host_bytes::{MEMORY_SIZE, compare, copy, copy_and_fill, find, is_valid};
use library_meaning::HostStop;
use memchr::{memchr, memchr2};

/// `strlen` (C11 7.24.6.3): how many bytes stand before the NUL. `BadAddress` where one of these or the NUL has no valid
/// address.
pub fn strlen_c(mem: &[u8], s: u64) -> Result<u64, HostStop>
    requires { length mem.now ≡ memory_size }
    ensures { Reads (s ∷ []) (run (on_bytes (s ∷ [])) table.strlen mem.now quiet) mem.now result }
{
    let text = find(mem, s, u64::MAX, 0)?;
    Ok(text.len)
}

/// `strcpy` (C11 7.24.2.3), as glibc's `__strcpy_chk`: gives `d`. `Overflow` where the first `size` bytes of `s` hold no NUL;
/// `BadAddress` where a byte that must be read or stored has no valid address.
pub fn strcpy_c(mem: &mut [u8], d: u64, s: u64, size: u64) -> Result<u64, HostStop>
    requires { length mem.old ≡ memory_size }
    ensures { Does (d ∷ s ∷ []) (run (on_bytes (d ∷ s ∷ [])) (table.strcpy size) mem.old quiet) mem.old mem.new result }
{
    let text = find(mem, s, size, 0)?;
    if !text.ended {
        return Err(HostStop::Overflow);
    }
    if !is_valid(d, text.len + 1) {
        return Err(HostStop::BadAddress);
    }
    copy(mem, d, s, text.len + 1);
    Ok(d)
}

/// POSIX's `stpcpy`, as glibc's `__stpcpy_chk`: as `strcpy_c`, but gives the address of the NUL at `d`.
pub fn stpcpy_c(mem: &mut [u8], d: u64, s: u64, size: u64) -> Result<u64, HostStop>
    requires { length mem.old ≡ memory_size }
    ensures { Does (d ∷ s ∷ []) (run (on_bytes (d ∷ s ∷ [])) (table.stpcpy size) mem.old quiet) mem.old mem.new result }
{
    let end = find(mem, s, size, 0)?;
    if !end.ended {
        return Err(HostStop::Overflow);
    }
    let count = end.len + 1;
    if !is_valid(d, count) {
        return Err(HostStop::BadAddress);
    }
    copy(mem, d, s, count);
    Ok(d + end.len)
}

/// `strncpy` (C11 7.24.2.4), as glibc's `__strncpy_chk`: gives `d`. `Overflow` where `n` is over `size`; `BadAddress` where a
/// byte that must be read or stored has no valid address.
pub fn strncpy_c(mem: &mut [u8], d: u64, s: u64, n: u64, size: u64) -> Result<u64, HostStop>
    requires { length mem.old ≡ memory_size }
    ensures { Does (d ∷ s ∷ n ∷ []) (run (on_bytes (d ∷ s ∷ n ∷ [])) (table.strncpy size) mem.old quiet) mem.old mem.new result }
{
    if n > size {
        return Err(HostStop::Overflow);
    }
    let text = find(mem, s, n, 0)?;
    if !is_valid(d, n) {
        return Err(HostStop::BadAddress);
    }
    copy_and_fill(mem, d, s, text.len, n - text.len);
    Ok(d)
}

/// Appends at most `most` bytes of `s`, and a NUL, behind the first `k` bytes of `d`.
fn append(mem: &mut [u8], d: u64, s: u64, k: u64, most: u64, size: u64) -> Result<u64, HostStop>
    requires memory { length mem.old ≡ memory_size }
    requires head { are_valid d k ≡ true }
    requires small { k ≤ memory_size }
    ensures { (touched rest : List ℕ) → Does (d ∷ s ∷ rest)
        (run (on_bytes (d ∷ s ∷ rest)) (table.appended touched size k most) mem.old quiet) mem.old mem.new result }
{
    let tail = match find(mem, s, most, 0) {
        Ok(tail) => tail,
        Err(stop) => return Err(stop),
    };
    if k + tail.len + 1 > size {
        return Err(HostStop::Overflow);
    }
    if !is_valid(d + k, tail.len + 1) {
        return Err(HostStop::BadAddress);
    }
    copy_and_fill(mem, d + k, s, tail.len, 1);
    Ok(d)
}

/// `strcat` (C11 7.24.3.1), as glibc's `__strcat_chk`: gives `d`. `Overflow` where the first `size` bytes of `d` hold no NUL, or
/// the text with its NUL doesn't fit behind it; `BadAddress` where a byte that must be read or stored has no valid address.
pub fn strcat_c(mem: &mut [u8], d: u64, s: u64, size: u64) -> Result<u64, HostStop>
    requires { length mem.old ≡ memory_size }
    ensures { Does (d ∷ s ∷ []) (run (on_bytes (d ∷ s ∷ [])) (table.strcat size) mem.old quiet) mem.old mem.new result }
{
    let head = find(mem, d, size, 0)?;
    if !head.ended {
        return Err(HostStop::Overflow);
    }
    append(mem, d, s, head.len, size - head.len, size)
}

/// `strncat` of at most `n` bytes (C11 7.24.3.2), as glibc's `__strncat_chk`: gives `d`. Fails as `strcat_c` does.
pub fn strncat_c(mem: &mut [u8], d: u64, s: u64, n: u64, size: u64) -> Result<u64, HostStop>
    requires { length mem.old ≡ memory_size }
    ensures { Does (d ∷ s ∷ n ∷ []) (run (on_bytes (d ∷ s ∷ n ∷ [])) (table.strncat size) mem.old quiet) mem.old mem.new result }
{
    let head = find(mem, d, size, 0)?;
    if !head.ended {
        return Err(HostStop::Overflow);
    }
    append(mem, d, s, head.len, n.min(size - head.len), size)
}

/// The order of two texts that begin with these bytes: told where they differ or end here.
fn compare_parts(left: &[u8], right: &[u8]) -> Option<u64>
    requires { length left.now ≡ length right.now }
    ensures { (xs ys : List ℕ) → order_found (both_scan (left.now ++ xs) (right.now ++ ys)) ≡ order_or result xs ys }
{
    if left.len() == BLOCK {
        return compare_blocks(left, right);
    }
    match memchr(0, left) {
        Some(k) => Some(compare(&left[..k + 1], &right[..k + 1])),
        None => {
            let order = compare(left, right);
            if order == 0 { None } else { Some(order) }
        }
    }
}

/// The order of two texts, by the first bytes that differ, up to a NUL.
fn compare_texts(left: &[u8], right: &[u8]) -> Result<u64, HostStop>
    ensures { result ≡ order_found (both_scan left.now right.now) }
{
    let most = left.len().min(right.len());
    let mut at = 0;
    while at < most {
        let end = at + (most - at).min(BLOCK);
        match compare_parts(&left[at..end], &right[at..end]) {
            Some(order) => return Ok(order),
            None => at = end,
        }
    }
    Err(HostStop::BadAddress)
}

/// `strcmp` (C11 7.24.4.2): -1, 0 or 1 by the first unequal bytes, as unsigned characters, up to a NUL. `BadAddress` where a
/// byte that must be read has no valid address.
pub fn strcmp_c(mem: &[u8], a: u64, b: u64) -> Result<u64, HostStop>
    requires { length mem.now ≡ memory_size }
    ensures { Reads (a ∷ b ∷ []) (run (on_bytes (a ∷ b ∷ [])) table.strcmp mem.now quiet) mem.now result }
{
    if !is_valid(a, 1) {
        return Err(HostStop::BadAddress);
    }
    if !is_valid(b, 1) {
        return Err(HostStop::BadAddress);
    }
    let left = a as usize;
    let right = b as usize;
    compare_texts(&mem[left..], &mem[right..])
}

/// `strchr` (C11 7.24.5.2): the address of the first byte `c`, as an unsigned character, up to and with the NUL, or 0.
/// `BadAddress` where a byte that must be read has no valid address.
pub fn strchr_c(mem: &[u8], s: u64, c: u64) -> Result<u64, HostStop>
    requires { length mem.now ≡ memory_size }
    ensures { Reads (s ∷ c ∷ []) (run (on_bytes (s ∷ c ∷ [])) table.strchr mem.now quiet) mem.now result }
{
    if !is_valid(s, 1) {
        return Err(HostStop::BadAddress);
    }
    let wanted = (c % 256) as u8;
    let start = s as usize;
    match memchr2(0, wanted, &mem[start..MEMORY_SIZE as usize]) {
        Some(k) => Ok(if mem[start + k] == wanted {
            s + k as u64
        } else {
            0
        }),
        None => Err(HostStop::BadAddress),
    }
}
