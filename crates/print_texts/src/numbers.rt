//! The sign and the digits of an integer's conversion.

ghost use Rattle.std.specs.Prelude.{◌≡◌, ◌≤◌, ◌<◌, drop, length};
ghost use Rattle.std.specs.Fmt.{digit_glyph, digits};
ghost use Rattle.print_formats.specs.Texts.{digits_of, printed_number, sign_of};
ghost use Rattle.print_texts.specs.Numbers.{sign_text};

use fc_base::{Width, extend};
use itoa::write_digits;
use print_formats::Numeral;

/// How many bytes the longest digits take: those of 2^64 - 1 in octal.
pub const ROOM: usize = 22;

/// Whether a number has a minus sign, and where its digits begin in the bytes that they were written into.
#[derive(Clone, Copy)]
pub struct Number {
    pub negative: bool,
    pub start: usize,
}

/// Writes the number that a conversion prints of its argument to the end of the bytes.
pub fn write_number(numeral: Numeral, of: Width, argument: u64, room: &mut [u8]) -> Number
    requires { length room.old ≡ 22 }
    ensures sign { sign_of (printed_number numeral of argument) ≡ sign_text result.negative }
    ensures digits { drop result.start room.new ≡ digits_of numeral (printed_number numeral of argument) }
    ensures start { result.start ≤ 22 }
    ensures size { length room.new ≡ 22 }
{
    match numeral {
        Numeral::Signed => {
            let value = extend(argument, of, true).cast_signed();
            let start = write_digits(value.unsigned_abs(), room, ROOM);
            Number {
                negative: value < 0,
                start,
            }
        }
        Numeral::Unsigned => Number {
            negative: false,
            start: write_digits(extend(argument, of, false), room, ROOM),
        },
        Numeral::Octal => Number {
            negative: false,
            start: write_radix(extend(argument, of, false), 8, false, room),
        },
        Numeral::Hexadecimal => Number {
            negative: false,
            start: write_radix(extend(argument, of, false), 16, false, room),
        },
        Numeral::UpperHexadecimal => Number {
            negative: false,
            start: write_radix(extend(argument, of, false), 16, true, room),
        },
    }
}

fn digit(value: u64, upper: bool) -> u8
    requires { value < 16 }
    ensures { result ≡ digit_glyph upper value }
{
    let value = value as u8;
    if value < 10 {
        b'0' + value
    } else if upper {
        b'A' + (value - 10)
    } else {
        b'a' + (value - 10)
    }
}

/// Writes the digits of a value to the end of the bytes, and gives their place.
fn write_radix(value: u64, base: u64, upper: bool, room: &mut [u8]) -> usize
    requires base { (8 ≤ base) × (base ≤ 16) }
    requires size { length room.old ≡ 22 }
    ensures digits { drop result room.new ≡ digits base upper value }
    ensures start { result ≤ 22 }
    ensures same_size { length room.new ≡ 22 }
{
    let mut at = ROOM;
    let mut left = value;
    loop {
        at -= 1;
        room[at] = digit(left % base, upper);
        left /= base;
        if left == 0 {
            return at;
        }
    }
}
