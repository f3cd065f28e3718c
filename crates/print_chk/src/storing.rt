//! Bytes that a print stores, as far as there is room.

ghost use Rattle.std.specs.Prelude.{◌≡◌, ◌+◌, ◌≤◌, [], true, false, length, replicate, IsOk};
ghost use Rattle.library_meaning.specs.Memory.{are_valid, bytes_at, first_valid, memory_size};
ghost use Rattle.library_meaning.specs.OnBytes.{meets};
ghost use Rattle.print_texts.specs.Numbers.{sign_text};
ghost use Rattle.print_texts.specs.Paddings.{in_parts};
ghost use Rattle.print_texts.specs.Printing.{apart, conversion_length, conversion_reads, conversion_text, shown};
ghost use Rattle.print_chk.specs.Readable.{IsFormat, cells_of, format_directives};
ghost use Rattle.print_chk.specs.Stored.{Stores};

use crate::formats::{Format, part_at};
use crate::pieces::{characters, sign_bytes, tail};
use host_bytes::{copy, fill, find};
use print_formats::{Conversion, Specifier};
use print_texts::{Padding, Part, ROOM, argument, most, padding_of, write_number};

/// Where the next bytes are stored, and how many there is room for.
#[derive(Clone, Copy)]
pub struct Room {
    pub at: u64,
    pub left: u64,
}

/// Stores a byte that many times.
fn store_fill(mem: &mut [u8], room: Room, byte: u8, count: u64) -> Room
    requires size { length mem.old ≡ memory_size }
    requires low { first_valid ≤ room.at }
    requires high { room.at + room.left ≤ memory_size }
    ensures stores { Stores (replicate count byte) room mem.old mem.new result }
    ensures same_size { length mem.new ≡ memory_size }
{
    let stored = count.min(room.left);
    fill(mem, room.at, byte, stored);
    Room {
        at: room.at + stored,
        left: room.left - stored,
    }
}

/// Stores the bytes.
fn store_bytes(mem: &mut [u8], room: Room, bytes: &[u8]) -> Room
    requires size { length mem.old ≡ memory_size }
    requires low { first_valid ≤ room.at }
    requires high { room.at + room.left ≤ memory_size }
    ensures stores { Stores bytes.now room mem.old mem.new result }
    ensures same_size { length mem.new ≡ memory_size }
{
    let stored = (bytes.len() as u64).min(room.left);
    let start = room.at as usize;
    let count = stored as usize;
    mem[start..start + count].copy_from_slice(&bytes[..count]);
    Room {
        at: room.at + stored,
        left: room.left - stored,
    }
}

/// Stores so many bytes of memory from an address on.
fn store_copy(mem: &mut [u8], room: Room, from: u64, count: u64) -> Room
    requires size { length mem.old ≡ memory_size }
    requires low { first_valid ≤ room.at }
    requires high { room.at + room.left ≤ memory_size }
    requires from { are_valid from count ≡ true }
    ensures stores { Stores (bytes_at mem.old from count) room mem.old mem.new result }
    ensures same_size { length mem.new ≡ memory_size }
{
    let stored = count.min(room.left);
    copy(mem, room.at, from, stored);
    Room {
        at: room.at + stored,
        left: room.left - stored,
    }
}

/// Stores a sign and a body with their padding.
fn store_padded(mem: &mut [u8], room: Room, padding: Padding, negative: bool, body: &[u8]) -> Room
    requires size { length mem.old ≡ memory_size }
    requires low { first_valid ≤ room.at }
    requires high { room.at + room.left ≤ memory_size }
    ensures stores { Stores (in_parts padding (sign_text negative) body.now) room mem.old mem.new result }
    ensures same_size { length mem.new ≡ memory_size }
{
    let signed = store_fill(mem, room, b' ', padding.before);
    let padded = store_bytes(mem, signed, sign_bytes(negative));
    let begun = store_fill(mem, padded, b'0', padding.zeros);
    let ended = store_bytes(mem, begun, body);
    store_fill(mem, ended, b' ', padding.behind)
}

/// Stores so many bytes of memory from an address on, with their padding.
fn store_string(mem: &mut [u8], room: Room, padding: Padding, from: u64, count: u64) -> Room
    requires size { length mem.old ≡ memory_size }
    requires low { first_valid ≤ room.at }
    requires high { room.at + room.left ≤ memory_size }
    requires from { are_valid from count ≡ true }
    requires apart { meets room.at room.left from count ≡ false }
    ensures stores { Stores (in_parts padding [] (bytes_at mem.old from count)) room mem.old mem.new result }
    ensures same_size { length mem.new ≡ memory_size }
{
    let spaced = store_fill(mem, room, b' ', padding.before);
    let begun = store_fill(mem, spaced, b'0', padding.zeros);
    let ended = store_copy(mem, begun, from, count);
    store_fill(mem, ended, b' ', padding.behind)
}

/// Stores what a conversion prints of its argument.
fn store_conversion(mem: &mut [u8], room: Room, conversion: Conversion, value: u64) -> Room
    requires size { length mem.old ≡ memory_size }
    requires low { first_valid ≤ room.at }
    requires high { room.at + room.left ≤ memory_size }
    requires valid { IsOk (conversion_length mem.old conversion value) }
    requires apart { meets room.at room.left value (conversion_reads mem.old conversion.specifier value) ≡ false }
    ensures stores { Stores (conversion_text mem.old conversion value) room mem.old mem.new result }
    ensures same_size { length mem.new ≡ memory_size }
{
    let options = conversion.options;
    match conversion.specifier {
        Specifier::Integer { numeral, of } => {
            let mut bytes = [0; ROOM];
            let number = write_number(numeral, of, value, &mut bytes);
            let digits = tail(&bytes, number.start);
            let count = characters(number.negative, digits.len() as u64);
            store_padded(
                mem,
                room,
                padding_of(options, count),
                number.negative,
                digits,
            )
        }
        Specifier::Character => {
            store_padded(
                mem,
                room,
                padding_of(options, 1),
                false,
                &[(value % 256) as u8],
            )
        }
        Specifier::Text { precision } => match find(mem, value, most(precision), 0) {
            Ok(text) => store_string(mem, room, padding_of(options, text.len), value, text.len),
            Err(_) => unreachable!(),
        },
    }
}

/// Stores what a format prints of its arguments, where it reads nothing of the room.
pub fn store_format(mem: &mut [u8], room: Room, format: Format, args: &[u64]) -> Room
    requires size { length mem.old ≡ memory_size }
    requires low { first_valid ≤ room.at }
    requires high { room.at + room.left ≤ memory_size }
    requires is { IsFormat args.now mem.old format }
    requires far { meets room.at room.left format.at (cells_of format.text) ≡ false }
    requires apart { apart args.now mem.old room.at room.left (format_directives mem.old format) 0 ≡ true }
    ensures stores { Stores (shown args.now mem.old (format_directives mem.old format) 0) room mem.old mem.new result }
    ensures same_size { length mem.new ≡ memory_size }
{
    let mut at = 0;
    let mut next = 0;
    let mut left = room;
    loop {
        match part_at(mem, format, at) {
            Part::End => return left,
            Part::Malformed => unreachable!(),
            Part::Run { from, behind } => {
                left = store_copy(mem, left, format.at + from as u64, (behind - from) as u64);
                at = behind;
            }
            Part::Converted { conversion, behind } => {
                left = store_conversion(mem, left, conversion, argument(args, next));
                next += 1;
                at = behind;
            }
        }
    }
}
