//! What a print reads of memory.

ghost use Rattle.std.specs.Prelude.{◌≡◌, ◌≤◌, true, length, is_some};
ghost use Rattle.library_meaning.specs.Memory.{are_valid, memory_size};
ghost use Rattle.print_formats.specs.Formats.{directives_of};
ghost use Rattle.print_texts.specs.Parts.{PartAt};
ghost use Rattle.print_texts.specs.Printing.{apart, listed};
ghost use Rattle.print_chk.specs.Readable.{IsFormat, IsReadable, format_bytes, format_directives, is_free};

use crate::pieces::bytes;
use host_bytes::{Text, find, is_valid};
use library_meaning::HostStop;
use print_texts::{Part, accepts, argument, cells, measure, meets, next_part, reads};

/// A format in memory with arguments that it takes: where it stands, its bytes up to the NUL, how long its text is, and whether its
/// strings are known to be apart from where that may be stored.
#[derive(Clone, Copy)]
pub struct Format {
    pub at: u64,
    pub text: Text,
    pub length: u64,
    pub clear: bool,
}

/// Reads the format at an address: `BadFormat` where its bytes are none or have more conversions than arguments, `BadAddress` where a
/// byte that must be read has no valid address. The text may be stored in `room` bytes at `to`.
pub fn read_format(
    mem: &[u8],
    at: u64,
    args: &[u64],
    to: u64,
    room: u64,
) -> Result<Format, HostStop>
    requires { length mem.now ≡ memory_size }
    ensures { IsReadable args.now mem.now to room at result }
{
    let text = match find(mem, at, u64::MAX, 0) {
        Ok(text) => text,
        Err(stop) => return Err(stop),
    };
    let format = bytes(mem, at, text.len);
    if !accepts(format, args.len()) {
        return Err(HostStop::BadFormat);
    }
    match measure(mem, format, args, to, room) {
        Ok(measured) => Ok(Format {
            at,
            text,
            length: measured.length,
            clear: measured.clear,
        }),
        Err(stop) => Err(stop),
    }
}

/// What stands at a place of a format.
pub fn part_at(mem: &[u8], format: Format, at: usize) -> Part
    requires memory { length mem.now ≡ memory_size }
    requires valid { are_valid format.at format.text.len ≡ true }
    requires inside { at ≤ length (format_bytes mem.now format) }
    ensures { PartAt (format_bytes mem.now format) at result }
{
    next_part(bytes(mem, format.at, format.text.len), at)
}

/// Whether what the conversions of a format read is apart from so many bytes at an address.
fn is_apart(mem: &[u8], format: &[u8], args: &[u64], to: u64, count: u64) -> bool
    requires memory { length mem.now ≡ memory_size }
    requires short { length format.now ≤ memory_size }
    requires well { is_some (directives_of format.now) ≡ true }
    ensures { result ≡ apart args.now mem.now to count (listed (directives_of format.now)) 0 }
{
    let mut at = 0;
    let mut next = 0;
    loop {
        match next_part(format, at) {
            Part::End => return true,
            Part::Malformed => unreachable!(),
            Part::Run { from: _, behind } => at = behind,
            Part::Converted { conversion, behind } => {
                let value = argument(args, next);
                if meets(to, count, value, reads(mem, conversion.specifier, value)) {
                    return false;
                }
                next += 1;
                at = behind;
            }
        }
    }
}

/// Whether the strings of a format are apart from so many bytes at an address, some of those where its text may be stored.
fn is_clear(mem: &[u8], to: u64, count: u64, format: Format, args: &[u64]) -> bool
    requires memory { length mem.now ≡ memory_size }
    requires is { IsFormat args.now mem.now format }
    requires known { format.clear ≡ true → apart args.now mem.now to count (format_directives mem.now format) 0 ≡ true }
    ensures { result ≡ apart args.now mem.now to count (format_directives mem.now format) 0 }
{
    if format.clear {
        return true;
    }
    is_apart(mem, bytes(mem, format.at, format.text.len), args, to, count)
}

/// Whether a print may store so many bytes at an address: all may be touched, and none is one that it reads.
pub fn is_free(mem: &[u8], to: u64, count: u64, format: Format, args: &[u64]) -> bool
    requires memory { length mem.now ≡ memory_size }
    requires is { IsFormat args.now mem.now format }
    requires known { format.clear ≡ true → apart args.now mem.now to count (format_directives mem.now format) 0 ≡ true }
    ensures { result ≡ is_free args.now mem.now to count format }
{
    if meets(to, count, format.at, cells(format.text)) {
        return false;
    }
    if !is_clear(mem, to, count, format, args) {
        return false;
    }
    is_valid(to, count)
}
