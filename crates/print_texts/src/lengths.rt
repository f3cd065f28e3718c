//! Whether a format is one, and how long what it prints is.

ghost use Rattle.std.specs.Prelude.{◌≡◌, ◌+◌, ◌≤◌, ◌<◌, ◌^◌, length, get_or, is_some, true, IfOk, if◌then◌else◌};
ghost use Rattle.library_meaning.specs.Memory.{memory_size};
ghost use Rattle.library_meaning.specs.OnBytes.{meets};
ghost use Rattle.library_meaning.specs.Prints.{most_of};
ghost use Rattle.print_formats.specs.Formats.{directives_of};
ghost use Rattle.print_texts.specs.Measures.{length_of};
ghost use Rattle.print_texts.specs.Printing.{accepted, apart, conversion_length, conversion_reads, counted, listed, measured};

use crate::numbers::{ROOM, write_number};
use crate::parts::{Part, next_part};
use host_bytes::{Text, find};
use library_meaning::HostStop;
use print_formats::{Conversion, Specifier};

/// The argument of that number, or 0 past the last one.
pub fn argument(args: &[u64], number: usize) -> u64
    ensures { result ≡ get_or args.now number 0 }
{
    if number < args.len() { args[number] } else { 0 }
}

/// How many bytes of a string are read at most.
pub fn most(precision: Option<u32>) -> u64
    ensures { result ≡ most_of precision }
{
    match precision {
        Some(precision) => u64::from(precision),
        None => u64::MAX,
    }
}

/// Whether bytes are a format whose conversions take at most so many arguments.
pub fn accepts(format: &[u8], passed: usize) -> bool
    ensures { result ≡ accepted passed 0 (directives_of format.now) }
{
    let mut at = 0;
    let mut count = 0;
    loop {
        match next_part(format, at) {
            Part::End => return count <= passed,
            Part::Malformed => return false,
            Part::Run { from: _, behind } => at = behind,
            Part::Converted {
                conversion: _,
                behind,
            } => {
                count += 1;
                at = behind;
            }
        }
    }
}

/// How many characters a conversion has without its padding.
fn counted(mem: &[u8], specifier: Specifier, value: u64) -> Result<u64, HostStop>
    requires { length mem.now ≡ memory_size }
    ensures is { result ≡ counted mem.now specifier value }
    ensures small { IfOk result (λ k. k < 2 ^ 32) }
{
    match specifier {
        Specifier::Integer { numeral, of } => {
            let mut room = [0; ROOM];
            let number = write_number(numeral, of, value, &mut room);
            let digits = (ROOM - number.start) as u64;
            Ok(if number.negative { 1 + digits } else { digits })
        }
        Specifier::Character => Ok(1),
        Specifier::Text { precision } => match find(mem, value, most(precision), 0) {
            Ok(text) => Ok(text.len),
            Err(stop) => Err(stop),
        },
    }
}

/// How long a conversion's text is.
pub fn conversion_length(mem: &[u8], conversion: Conversion, value: u64) -> Result<u64, HostStop>
    requires { length mem.now ≡ memory_size }
    ensures is { result ≡ conversion_length mem.now conversion value }
    ensures small { IfOk result (λ k. k < 2 ^ 32) }
{
    match counted(mem, conversion.specifier, value) {
        Ok(count) => Ok(count.max(u64::from(conversion.options.width))),
        Err(stop) => Err(stop),
    }
}

/// How many bytes a scan has read, with the one that stopped it.
pub fn cells(text: Text) -> u64
    requires { text.len ≤ memory_size }
    ensures { result ≡ (if text.ended then text.len + 1 else text.len) }
{
    if text.ended { text.len + 1 } else { text.len }
}

/// Whether two stretches of memory have a byte in common.
pub fn meets(first: u64, count: u64, second: u64, other: u64) -> bool
    ensures { result ≡ meets first count second other }
{
    count != 0
        && other != 0
        && second.saturating_sub(first) < count
        && first.saturating_sub(second) < other
}

/// How many bytes of memory a conversion reads of its argument.
pub fn reads(mem: &[u8], specifier: Specifier, value: u64) -> u64
    requires { length mem.now ≡ memory_size }
    ensures { result ≡ conversion_reads mem.now specifier value }
{
    match specifier {
        Specifier::Integer { numeral: _, of: _ } => 0,
        Specifier::Character => 0,
        Specifier::Text { precision } => match find(mem, value, most(precision), 0) {
            Ok(text) => cells(text),
            Err(_) => 0,
        },
    }
}

/// How long a text is, and whether what its strings are read from is apart from the bytes that were asked about.
#[derive(Clone, Copy)]
pub struct Measured {
    pub length: u64,
    pub clear: bool,
}

/// How long the text of a format is, and whether its strings are apart from `room` bytes at `to`; or `BadAddress` where a byte of a
/// string has no valid address.
pub fn measure(
    mem: &[u8],
    format: &[u8],
    args: &[u64],
    to: u64,
    room: u64,
) -> Result<Measured, HostStop>
    requires memory { length mem.now ≡ memory_size }
    requires short { length format.now ≤ memory_size }
    requires well { is_some (directives_of format.now) ≡ true }
    ensures length { length_of result ≡ measured args.now mem.now (listed (directives_of format.now)) 0 0 }
    ensures clear { IfOk result (λ t. t.clear ≡ apart args.now mem.now to room (listed (directives_of format.now)) 0) }
{
    let mut at = 0;
    let mut next = 0;
    let mut total = 0;
    let mut clear = true;
    loop {
        match next_part(format, at) {
            Part::End => {
                return Ok(Measured {
                    length: total,
                    clear,
                });
            }
            Part::Malformed => return Err(HostStop::BadFormat),
            Part::Run { from, behind } => {
                total += (behind - from) as u64;
                at = behind;
            }
            Part::Converted { conversion, behind } => {
                let value = argument(args, next);
                match conversion_length(mem, conversion, value) {
                    Ok(length) => total += length,
                    Err(stop) => return Err(stop),
                }
                clear = clear && !meets(to, room, value, reads(mem, conversion.specifier, value));
                next += 1;
                at = behind;
            }
        }
    }
}
