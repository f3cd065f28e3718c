//! Prints on a descriptor.

ghost use Rattle.std.specs.Prelude.{◌≡◌, ◌≤◌, ◌∷◌, ℕ, true, length, replicate, is_some, IsOk};
ghost use Rattle.run_meaning.specs.Objects.{stream};
ghost use Rattle.library_meaning.specs.Rows.{run};
ghost use Rattle.library_meaning.specs.Prints as prints;
ghost use Rattle.library_meaning.specs.OnBytes.{on_bytes, quiet};
ghost use Rattle.library_meaning.specs.Memory.{memory_size};
ghost use Rattle.library_meaning.specs.OnStreams.{Writes};
ghost use Rattle.print_formats.specs.Formats.{directives_of};
ghost use Rattle.print_texts.specs.Numbers.{sign_text};
ghost use Rattle.print_texts.specs.Paddings.{in_parts};
ghost use Rattle.print_texts.specs.Printing.{conversion_length, conversion_text, listed, measured, shown};
ghost use Rattle.print_chk.specs.Written.{Wrote};

use crate::formats::read_format;
use crate::pieces::{bytes, characters, sign_bytes, tail};
use fc_base::Sink;
use host_bytes::find;
use library_meaning::HostStop;
use print_formats::{Conversion, Specifier};
use print_texts::{Padding, Part, ROOM, argument, most, next_part, padding_of, write_number};

/// Writes bytes on the sink.
pub fn put<S: Sink>(sink: &mut S, bytes: &[u8]) -> Result<(), HostStop>
    ensures { Wrote bytes.now result
        (stream (S.written sink.old) (S.count sink.old)) (stream (S.written sink.new) (S.count sink.new)) }
{
    match sink.write(bytes) {
        Ok(()) => Ok(()),
        Err(_) => Err(HostStop::SinkFault),
    }
}

/// Writes a byte that many times on the sink.
fn repeat<S: Sink>(sink: &mut S, byte: u8, count: u64) -> Result<(), HostStop>
    ensures { Wrote (replicate count byte) result
        (stream (S.written sink.old) (S.count sink.old)) (stream (S.written sink.new) (S.count sink.new)) }
{
    let piece = [byte; 32];
    let mut left = count;
    while left > 32 {
        match put(sink, &piece) {
            Ok(()) => left -= 32,
            Err(stop) => return Err(stop),
        }
    }
    put(sink, &piece[..left as usize])
}

/// Writes a sign and a body with their padding.
fn put_padded<S: Sink>(
    sink: &mut S,
    padding: Padding,
    negative: bool,
    body: &[u8],
) -> Result<(), HostStop>
    ensures { Wrote (in_parts padding (sign_text negative) body.now) result
        (stream (S.written sink.old) (S.count sink.old)) (stream (S.written sink.new) (S.count sink.new)) }
{
    match repeat(sink, b' ', padding.before) {
        Ok(()) => {}
        Err(stop) => return Err(stop),
    }
    match put(sink, sign_bytes(negative)) {
        Ok(()) => {}
        Err(stop) => return Err(stop),
    }
    match repeat(sink, b'0', padding.zeros) {
        Ok(()) => {}
        Err(stop) => return Err(stop),
    }
    match put(sink, body) {
        Ok(()) => {}
        Err(stop) => return Err(stop),
    }
    repeat(sink, b' ', padding.behind)
}

/// Writes what a conversion prints of its argument.
fn put_conversion<S: Sink>(
    mem: &[u8],
    sink: &mut S,
    conversion: Conversion,
    value: u64,
) -> Result<(), HostStop>
    requires memory { length mem.now ≡ memory_size }
    requires valid { IsOk (conversion_length mem.now conversion value) }
    ensures { Wrote (conversion_text mem.now conversion value) result
        (stream (S.written sink.old) (S.count sink.old)) (stream (S.written sink.new) (S.count sink.new)) }
{
    let options = conversion.options;
    match conversion.specifier {
        Specifier::Integer { numeral, of } => {
            let mut room = [0; ROOM];
            let number = write_number(numeral, of, value, &mut room);
            let digits = tail(&room, number.start);
            let count = characters(number.negative, digits.len() as u64);
            put_padded(sink, padding_of(options, count), number.negative, digits)
        }
        Specifier::Character => put_padded(
            sink,
            padding_of(options, 1),
            false,
            &[(value % 256) as u8],
        ),
        Specifier::Text { precision } => match find(mem, value, most(precision), 0) {
            Ok(text) => put_padded(
                sink,
                padding_of(options, text.len),
                false,
                bytes(mem, value, text.len),
            ),
            Err(stop) => Err(stop),
        },
    }
}

/// Writes what a format prints of its arguments.
fn put_format<S: Sink>(
    mem: &[u8],
    sink: &mut S,
    format: &[u8],
    args: &[u64],
) -> Result<(), HostStop>
    requires memory { length mem.now ≡ memory_size }
    requires short { length format.now ≤ memory_size }
    requires well { is_some (directives_of format.now) ≡ true }
    requires valid { IsOk (measured args.now mem.now (listed (directives_of format.now)) 0 0) }
    ensures { Wrote (shown args.now mem.now (listed (directives_of format.now)) 0) result
        (stream (S.written sink.old) (S.count sink.old)) (stream (S.written sink.new) (S.count sink.new)) }
{
    let mut at = 0;
    let mut next = 0;
    loop {
        match next_part(format, at) {
            Part::End => return Ok(()),
            Part::Malformed => return Err(HostStop::BadFormat),
            Part::Run { from, behind } => {
                match put(sink, &format[from..behind]) {
                    Ok(()) => at = behind,
                    Err(stop) => return Err(stop),
                }
            }
            Part::Converted { conversion, behind } => {
                match put_conversion(mem, sink, conversion, argument(args, next)) {
                    Ok(()) => at = behind,
                    Err(stop) => return Err(stop),
                }
                next += 1;
            }
        }
    }
}

/// `printf` (C11 7.21.6.3), and POSIX's `dprintf` on a descriptor that the sink stands for, of the arguments behind the format: gives
/// the length of the text as an int. `BadFormat` where the bytes up to the NUL are no format or have more conversions than arguments;
/// `BadAddress` where a byte that must be read has no valid address. In both cases nothing is written. `SinkFault` where the sink failed.
pub fn print_out<S: Sink>(
    mem: &[u8],
    sink: &mut S,
    format: u64,
    args: &[u64],
) -> Result<u64, HostStop>
    requires { length mem.now ≡ memory_size }
    ensures printf { Writes (format ∷ args.now)
        (run (on_bytes (format ∷ args.now)) (prints.printf (length args.now)) mem.now quiet) result
        (stream (S.written sink.old) (S.count sink.old)) (stream (S.written sink.new) (S.count sink.new)) }
    ensures dprintf { (first descriptor : ℕ) → Writes (first ∷ format ∷ args.now)
        (run (on_bytes (first ∷ format ∷ args.now)) (prints.print_on descriptor (length args.now) 1) mem.now quiet) result
        (stream (S.written sink.old) (S.count sink.old)) (stream (S.written sink.new) (S.count sink.new)) }
    ensures grew { S.count sink.old ≤ S.count sink.new }
{
    let format = match read_format(mem, format, args, 0, 0) {
        Ok(format) => format,
        Err(stop) => return Err(stop),
    };
    match put_format(mem, sink, bytes(mem, format.at, format.text.len), args) {
        Ok(()) => Ok(format.length % (1 << 32)),
        Err(stop) => Err(stop),
    }
}
