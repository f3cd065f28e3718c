//! Prints into memory.

ghost use Rattle.std.specs.Prelude.{◌≡◌, ◌+◌, ◌<◌, ◌≤◌, ◌∷◌, min, true, false, length};
ghost use Rattle.library_meaning.specs.Rows.{run};
ghost use Rattle.library_meaning.specs.Prints as prints;
ghost use Rattle.library_meaning.specs.OnBytes.{Does, on_bytes, quiet};
ghost use Rattle.library_meaning.specs.Memory.{memory_size};
ghost use Rattle.print_texts.specs.Printing.{apart};
ghost use Rattle.print_chk.specs.Readable.{IsFormat, format_directives};
ghost use Rattle.print_chk.specs.Stored.{Puts};

use crate::formats::{Format, is_free, read_format};
use crate::storing::{Room, store_format};
use host_bytes::fill;
use library_meaning::HostStop;

/// Stores so many bytes at an address, what a format prints and a NUL behind it, and gives the length of the text as an int.
/// `BadAddress` where one of them has no valid address or is read by the print.
fn put_text(
    mem: &mut [u8],
    to: u64,
    count: u64,
    format: Format,
    args: &[u64],
) -> Result<u64, HostStop>
    requires size { length mem.old ≡ memory_size }
    requires some { 0 < count }
    requires whole { count ≤ format.length + 1 }
    requires is { IsFormat args.now mem.old format }
    requires known { format.clear ≡ true → apart args.now mem.old to count (format_directives mem.old format) 0 ≡ true }
    ensures { Puts args.now mem.old to count format result mem.new }
{
    if !is_free(mem, to, count, format, args) {
        return Err(HostStop::BadAddress);
    }
    let room = Room {
        at: to,
        left: count - 1,
    };
    store_format(mem, room, format, args);
    fill(mem, to + (count - 1), 0, 1);
    Ok(format.length % (1 << 32))
}

/// How many bytes are stored of a text of that length with its NUL, of which n may be.
fn stored_of(length: u64, n: u64) -> u64
    ensures { result ≡ min n (length + 1) }
{
    if length < n { length + 1 } else { n }
}

/// `sprintf`.
fn print_whole(
    mem: &mut [u8],
    d: u64,
    size: u64,
    format: u64,
    args: &[u64],
) -> Result<u64, HostStop>
    requires { length mem.old ≡ memory_size }
    ensures { Does (d ∷ format ∷ args.now)
        (run (on_bytes (d ∷ format ∷ args.now)) (prints.sprintf (length args.now) size) mem.old quiet) mem.old mem.new result }
{
    let format = match read_format(mem, format, args, d, size) {
        Ok(format) => format,
        Err(stop) => return Err(stop),
    };
    if format.length >= size {
        return Err(HostStop::Overflow);
    }
    put_text(mem, d, format.length + 1, format, args)
}

/// `snprintf`.
fn print_bounded(
    mem: &mut [u8],
    d: u64,
    n: u64,
    size: u64,
    format: u64,
    args: &[u64],
) -> Result<u64, HostStop>
    requires { length mem.old ≡ memory_size }
    ensures { Does (d ∷ n ∷ format ∷ args.now)
        (run (on_bytes (d ∷ n ∷ format ∷ args.now)) (prints.snprintf (length args.now) size) mem.old quiet) mem.old mem.new result }
{
    if n > size {
        return Err(HostStop::Overflow);
    }
    let format = match read_format(mem, format, args, d, n) {
        Ok(format) => format,
        Err(stop) => return Err(stop),
    };
    if n == 0 {
        return Ok(format.length % (1 << 32));
    }
    put_text(mem, d, stored_of(format.length, n), format, args)
}

/// `snprintf` of at most `n` bytes (C11 7.21.6.5) where it is bounded, else `sprintf` (7.21.6.6), as glibc's `__snprintf_chk` and
/// `__sprintf_chk` with the destination's size, of the arguments behind the format: gives the length of the text as an int. `Overflow`
/// where `n`, or the text with its NUL, is over `size`; `snprintf` tests it before it reads the format. `BadFormat` where the bytes up to
/// the NUL are no format or have more conversions than arguments; `BadAddress` where a byte that must be read or stored has no valid
/// address, or one would be stored that is read. Memory is then as it was.
pub fn print_mem(
    mem: &mut [u8],
    d: u64,
    n: u64,
    size: u64,
    format: u64,
    args: &[u64],
    bounded: bool,
) -> Result<u64, HostStop>
    requires { length mem.old ≡ memory_size }
    ensures snprintf { bounded ≡ true → Does (d ∷ n ∷ format ∷ args.now)
        (run (on_bytes (d ∷ n ∷ format ∷ args.now)) (prints.snprintf (length args.now) size) mem.old quiet) mem.old mem.new result }
    ensures sprintf { bounded ≡ false → Does (d ∷ format ∷ args.now)
        (run (on_bytes (d ∷ format ∷ args.now)) (prints.sprintf (length args.now) size) mem.old quiet) mem.old mem.new result }
{
    if bounded {
        print_bounded(mem, d, n, size, format, args)
    } else {
        print_whole(mem, d, size, format, args)
    }
}
