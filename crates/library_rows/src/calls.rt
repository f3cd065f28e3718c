//! A row of the tables, and what it asserts.

ghost use Rattle.std.specs.Prelude.{◌≡◌, length};
ghost use Rattle.library_meaning.specs.Memory.{memory_size};

use crate::memory::{clear, stand, store, zeros};
use library_meaning::HostStop;
use mem_chk::{bzero_c, memcmp_c, memcpy_c, memmove_c, mempcpy_c, memset_c};
use std::alloc::{AllocError, Global};
use std::process::Abort;
use str_chk::{stpcpy_c, strcat_c, strchr_c, strcmp_c, strcpy_c, strlen_c, strncat_c, strncpy_c};

/// A call with its operands in the order of its C function, and then the destination's size. Places are counted from the
/// row's.
#[derive(Clone, Copy)]
pub enum Call {
    Memcpy(u64, u64, u64, u64),
    Memmove(u64, u64, u64, u64),
    Mempcpy(u64, u64, u64, u64),
    Memset(u64, u64, u64, u64),
    Bzero(u64, u64, u64),
    Memcmp(u64, u64, u64),
    Strcpy(u64, u64, u64),
    Stpcpy(u64, u64, u64),
    Strncpy(u64, u64, u64, u64),
    Strcat(u64, u64, u64),
    Strncat(u64, u64, u64, u64),
    Strlen(u64),
    Strcmp(u64, u64),
    Strchr(u64, u64),
}

/// What a call answers: a place counted from the row's, a number, or why it stops.
#[derive(Clone, Copy)]
pub enum Answer {
    At(u64),
    Number(u64),
    Overflow,
    BadAddress,
    BadFormat,
}

/// A place, the bytes there before the call, the call, its answer, and the bytes there after it.
pub type Row = (u64, &'static [u8], Call, Answer, &'static [u8]);

fn moved(mem: &mut [u8], at: u64, call: Call) -> Result<u64, HostStop>
    requires { length mem.old ≡ memory_size }
{
    match call {
        Call::Memcpy(d, s, n, size) => {
            memcpy_c(mem, at.wrapping_add(d), at.wrapping_add(s), n, size)
        }
        Call::Memmove(d, s, n, size) => {
            memmove_c(mem, at.wrapping_add(d), at.wrapping_add(s), n, size)
        }
        Call::Mempcpy(d, s, n, size) => {
            mempcpy_c(mem, at.wrapping_add(d), at.wrapping_add(s), n, size)
        }
        Call::Memset(d, c, n, size) => memset_c(mem, at.wrapping_add(d), c, n, size),
        Call::Bzero(d, n, size) => bzero_c(mem, at.wrapping_add(d), n, size),
        Call::Memcmp(a, b, n) => memcmp_c(mem, at.wrapping_add(a), at.wrapping_add(b), n),
        _ => copied(mem, at, call),
    }
}

fn copied(mem: &mut [u8], at: u64, call: Call) -> Result<u64, HostStop>
    requires { length mem.old ≡ memory_size }
{
    match call {
        Call::Strcpy(d, s, size) => strcpy_c(mem, at.wrapping_add(d), at.wrapping_add(s), size),
        Call::Stpcpy(d, s, size) => stpcpy_c(mem, at.wrapping_add(d), at.wrapping_add(s), size),
        Call::Strncpy(d, s, n, size) => {
            strncpy_c(mem, at.wrapping_add(d), at.wrapping_add(s), n, size)
        }
        Call::Strcat(d, s, size) => strcat_c(mem, at.wrapping_add(d), at.wrapping_add(s), size),
        Call::Strncat(d, s, n, size) => {
            strncat_c(mem, at.wrapping_add(d), at.wrapping_add(s), n, size)
        }
        _ => read(mem, at, call),
    }
}

fn read(mem: &[u8], at: u64, call: Call) -> Result<u64, HostStop>
    requires { length mem.now ≡ memory_size }
{
    match call {
        Call::Strlen(s) => strlen_c(mem, at.wrapping_add(s)),
        Call::Strcmp(a, b) => strcmp_c(mem, at.wrapping_add(a), at.wrapping_add(b)),
        Call::Strchr(s, c) => strchr_c(mem, at.wrapping_add(s), c),
        _ => Err(HostStop::BadFormat),
    }
}

/// Whether the call answered so.
pub fn answers(found: Result<u64, HostStop>, at: u64, wanted: Answer) -> bool {
    match (found, wanted) {
        (Ok(n), Answer::At(k)) => n == at.wrapping_add(k),
        (Ok(n), Answer::Number(k)) => n == k,
        (Err(HostStop::Overflow), Answer::Overflow) => true,
        (Err(HostStop::BadAddress), Answer::BadAddress) => true,
        (Err(HostStop::BadFormat), Answer::BadFormat) => true,
        _ => false,
    }
}

/// Whether the row holds, in memory that is zero but there.
fn holds(mem: &mut [u8], row: &Row) -> bool
    requires { length mem.old ≡ memory_size }
{
    let (at, before, call, answer, after) = *row;
    store(mem, at, before);
    let found = moved(mem, at, call);
    let same = answers(found, at, answer) && stand(mem, at, after);
    clear(mem, at, before.len());
    same
}

fn assert_row(rt: &impl Abort, mem: &mut [u8], number: usize, row: &Row)
    requires { length mem.old ≡ memory_size }
{
    let same = holds(mem, row);
    assert!(rt; same, "row {number}");
}

/// Asserts each row.
fn assert_rows(rt: &impl Abort, mem: &mut [u8], rows: &[Row])
    requires { length mem.old ≡ memory_size }
{
    for number in 0..rows.len() {
        assert_row(rt, mem, number, &rows[number]);
    }
}

/// Asserts each row, in a memory of its own.
pub fn assert_table(rt: &impl Abort, alloc: Global, rows: &[Row]) -> Result<(), AllocError> {
    let mut mem = zeros(alloc, 17_825_792)?;
    assert_rows(rt, &mut mem, rows);
    Ok(())
}
