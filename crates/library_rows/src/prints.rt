//! Prints (C11 7.21.6.1, 7.21.6.3, 7.21.6.5 and 7.21.6.6; POSIX's `dprintf`). A negative number is written as what is added to
//! 2^64, which is its argument in 64 bits.

ghost use Rattle.std.specs.Prelude.{◌≡◌, length};
ghost use Rattle.library_meaning.specs.Memory.{memory_size};

use crate::calls::{Answer, answers};
use crate::memory::{A, END, NO_SIZE, clear, stand, store, zeros};
use fc_base::{MemSink, NoMemory};
use library_meaning::HostStop;
use print_chk::{print_mem, print_out};
use std::alloc::Global;
use std::process::Abort;
use std::test::Fail;

/// Where a print into memory stores, and where a string of ours stands.
pub const TO: u64 = A + 16384;

pub const STRING: u64 = A + 8192;

const POINTS: &[u8] = b"..............................";

/// A format with its argument, and what is printed.
type Printed = (&'static [u8], u64, &'static [u8]);

/// The least and the greatest number of each width in each base, and one past them.
const NUMBERS: &[Printed] = &[
    (b"%d", 0, b"0"),
    (b"%d", 2147483647, b"2147483647"),
    (b"%d", 2147483648, b"-2147483648"),
    (b"%d", 4294967295, b"-1"),
    (b"%i", 4294967296, b"0"),
    (b"%i", NO_SIZE, b"-1"),
    (b"%hd", 32767, b"32767"),
    (b"%hd", 32768, b"-32768"),
    (b"%hd", 65535, b"-1"),
    (b"%hi", 65536, b"0"),
    (b"%hhd", 127, b"127"),
    (b"%hhd", 128, b"-128"),
    (b"%hhd", 255, b"-1"),
    (b"%hhi", 256, b"0"),
    (b"%ld", 9223372036854775807, b"9223372036854775807"),
    (b"%ld", 9223372036854775808, b"-9223372036854775808"),
    (b"%ld", 2147483648, b"2147483648"),
    (b"%lld", 9223372036854775808, b"-9223372036854775808"),
    (b"%lli", NO_SIZE, b"-1"),
    (b"%zd", 9223372036854775807, b"9223372036854775807"),
    (b"%zd", 9223372036854775808, b"-9223372036854775808"),
    (b"%u", 0, b"0"),
    (b"%u", 4294967295, b"4294967295"),
    (b"%u", 4294967296, b"0"),
    (b"%hu", 65535, b"65535"),
    (b"%hu", 65536, b"0"),
    (b"%hhu", 255, b"255"),
    (b"%hhu", 256, b"0"),
    (b"%lu", 0, b"0"),
    (b"%lu", NO_SIZE, b"18446744073709551615"),
    (b"%llu", NO_SIZE, b"18446744073709551615"),
    (b"%zu", NO_SIZE, b"18446744073709551615"),
    (b"%o", 0, b"0"),
    (b"%o", 8, b"10"),
    (b"%o", NO_SIZE, b"37777777777"),
    (b"%ho", NO_SIZE, b"177777"),
    (b"%hho", NO_SIZE, b"377"),
    (b"%lo", NO_SIZE, b"1777777777777777777777"),
    (b"%llo", 0, b"0"),
    (b"%zo", 4294967296, b"40000000000"),
    (b"%x", 0, b"0"),
    (b"%x", 3735928559, b"deadbeef"),
    (b"%x", NO_SIZE, b"ffffffff"),
    (b"%hx", NO_SIZE, b"ffff"),
    (b"%hhx", NO_SIZE, b"ff"),
    (b"%lx", NO_SIZE, b"ffffffffffffffff"),
    (b"%llx", 4294967296, b"100000000"),
    (b"%zx", 81985529216486895, b"123456789abcdef"),
    (b"%X", 3735928559, b"DEADBEEF"),
    (b"%hX", NO_SIZE, b"FFFF"),
    (b"%hhX", 256, b"0"),
    (b"%lX", NO_SIZE, b"FFFFFFFFFFFFFFFF"),
    (b"%lld", 9223372036854775807, b"9223372036854775807"),
    (b"%llu", 0, b"0"),
    (b"%zu", 0, b"0"),
    (b"%hho", 0, b"0"),
    (b"%ho", 0, b"0"),
    (b"%lo", 0, b"0"),
    (b"%llo", NO_SIZE, b"1777777777777777777777"),
    (b"%zo", NO_SIZE, b"1777777777777777777777"),
    (b"%zo", 0, b"0"),
    (b"%hhx", 0, b"0"),
    (b"%hx", 0, b"0"),
    (b"%lx", 0, b"0"),
    (b"%llx", NO_SIZE, b"ffffffffffffffff"),
    (b"%llx", 0, b"0"),
    (b"%zx", NO_SIZE, b"ffffffffffffffff"),
    (b"%zx", 0, b"0"),
    (b"%hhX", NO_SIZE, b"FF"),
    (b"%hX", 0, b"0"),
    (b"%X", NO_SIZE, b"FFFFFFFF"),
    (b"%X", 0, b"0"),
    (b"%lX", 0, b"0"),
    (b"%llX", NO_SIZE, b"FFFFFFFFFFFFFFFF"),
    (b"%llX", 0, b"0"),
    (b"%zX", NO_SIZE, b"FFFFFFFFFFFFFFFF"),
    (b"%zX", 0, b"0"),
    (b"%i", 2147483647, b"2147483647"),
    (b"%i", 2147483648, b"-2147483648"),
    (b"%hi", 32767, b"32767"),
    (b"%hi", 32768, b"-32768"),
    (b"%hhi", 127, b"127"),
    (b"%hhi", 128, b"-128"),
    (b"%li", 9223372036854775807, b"9223372036854775807"),
    (b"%li", 9223372036854775808, b"-9223372036854775808"),
    (b"%lli", 9223372036854775807, b"9223372036854775807"),
    (b"%lli", 9223372036854775808, b"-9223372036854775808"),
    (b"%zi", 9223372036854775807, b"9223372036854775807"),
    (b"%zi", 9223372036854775808, b"-9223372036854775808"),
    (b"%hu", 0, b"0"),
    (b"%hhu", 0, b"0"),
];

/// Each flag with each conversion, and field widths.
const FLAGS: &[Printed] = &[
    (b"%5d", 42, b"   42"),
    (b"%-5d|", 42, b"42   |"),
    (b"%05d", 42, b"00042"),
    (b"%05d", 18446744073709551574, b"-0042"),
    (b"%5d", 18446744073709551574, b"  -42"),
    (b"%-5d|", 18446744073709551574, b"-42  |"),
    (b"%-05d|", 42, b"42   |"),
    (b"%0-5d|", 42, b"42   |"),
    (b"%0d", 42, b"42"),
    (b"%-d", 42, b"42"),
    (b"%-0d", 42, b"42"),
    (b"%1d", 42, b"42"),
    (b"%2d", 42, b"42"),
    (b"%03d", 18446744073709551574, b"-42"),
    (b"%5i", 42, b"   42"),
    (b"%-5i|", 42, b"42   |"),
    (b"%05i", 42, b"00042"),
    (b"%5u", 42, b"   42"),
    (b"%-5u|", 42, b"42   |"),
    (b"%05u", 42, b"00042"),
    (b"%5x", 171, b"   ab"),
    (b"%-5x|", 171, b"ab   |"),
    (b"%05x", 171, b"000ab"),
    (b"%5X", 171, b"   AB"),
    (b"%-5X|", 171, b"AB   |"),
    (b"%05lX", 171, b"000AB"),
    (b"%5o", 8, b"   10"),
    (b"%-5o|", 8, b"10   |"),
    (b"%05o", 8, b"00010"),
    (b"%c", 65, b"A"),
    (b"%c", 0, b"\0"),
    (b"%c", 321, b"A"),
    (b"%c", NO_SIZE, b"\xff"),
    (b"%3c", 65, b"  A"),
    (b"%-3c|", 65, b"A  |"),
    (b"%-3c|", 0, b"\0  |"),
    (b"%s", STRING, b"abc"),
    (b"%5s", STRING, b"  abc"),
    (b"%-5s|", STRING, b"abc  |"),
    (b"%2s", STRING, b"abc"),
    (b"%.s|", STRING, b"|"),
    (b"%.0s|", STRING, b"|"),
    (b"%.s|", 0, b"|"),
    (b"%3.0s|", 0, b"   |"),
    (b"%.2s", STRING, b"ab"),
    (b"%.3s", STRING, b"abc"),
    (b"%.4s", STRING, b"abc"),
    (b"%.007s", STRING, b"abc"),
    (b"%.4095s", STRING, b"abc"),
    (b"%5.1s", STRING, b"    a"),
    (b"%-5.2s|", STRING, b"ab   |"),
    (b"%s", STRING + 3, b""),
    (b"", 0, b""),
    (b"plain", 0, b"plain"),
    (b"100%%", 0, b"100%"),
    (b"%%%d%%", 7, b"%7%"),
    (b"a%db", 7, b"a7b"),
];

/// Whether the format at A prints the text on a sink that has just the room.
pub fn is_written(mem: &[u8], alloc: Global, value: u64, text: &[u8]) -> Result<bool, NoMemory>
    requires { length mem.now ≡ memory_size }
{
    let mut sink = MemSink::sized(alloc, text.len())?;
    let found = print_out(mem, &mut sink, A, &[value]);
    Ok(answers(found, 0, Answer::Number(text.len() as u64)) && sink.bytes() == text)
}

/// Whether a text and a NUL stand at the destination, and points behind them.
fn stands(mem: &[u8], text: &[u8]) -> bool {
    let end = TO.wrapping_add(text.len() as u64);
    stand(mem, TO, text) && stand(mem, end, b"\0.")
}

/// Stores points at the destination, and where the text ends.
fn store_points(mem: &mut [u8], text: &[u8]) {
    store(mem, TO, POINTS);
    store(mem, TO.wrapping_add(text.len() as u64), b"..");
}

/// Whether the format at A prints the text into memory, cut to what there is room for.
pub fn is_stored(mem: &mut [u8], value: u64, text: &[u8]) -> bool
    requires { length mem.old ≡ memory_size }
{
    let gives = Answer::Number(text.len() as u64);
    let fits = (text.len() as u64).wrapping_add(1);
    store_points(mem, text);
    let over = answers(
        print_mem(mem, TO, 0, text.len() as u64, A, &[value], false),
        0,
        Answer::Overflow,
    ) && stand(mem, TO, POINTS);
    let whole = answers(print_mem(mem, TO, 0, fits, A, &[value], false), 0, gives)
        && stands(mem, text);
    store_points(mem, text);
    let bounded = answers(print_mem(mem, TO, fits, fits, A, &[value], true), 0, gives)
        && stands(mem, text);
    store_points(mem, text);
    let cut = &text[..text.len().min(2)];
    let short = answers(print_mem(mem, TO, 3, 3, A, &[value], true), 0, gives) && stands(mem, cut);
    over && whole && bounded && short
}

fn assert_printed(
    rt: &impl Abort,
    alloc: Global,
    mem: &mut [u8],
    number: usize,
    row: &Printed,
) -> Result<(), NoMemory>
    requires { length mem.old ≡ memory_size }
{
    let (format, value, text) = *row;
    store(mem, A, format);
    let written = is_written(mem, alloc, value, text)?;
    let stored = is_stored(mem, value, text);
    clear(mem, A, format.len());
    assert!(rt; written && stored, "row {number}");
    Ok(())
}

fn assert_all_printed(
    rt: &impl Abort,
    alloc: Global,
    mem: &mut [u8],
    rows: &[Printed],
) -> Result<(), NoMemory>
    requires { length mem.old ≡ memory_size }
{
    for number in 0..rows.len() {
        assert_printed(rt, alloc, mem, number, &rows[number])?;
    }
    Ok(())
}

#[test]
fn numbers_are_printed(rt: HostRuntime) -> Result<(), Fail> {
    let mut mem = zeros(rt.alloc(), 17_825_792)?;
    assert_all_printed(&rt, rt.alloc(), &mut mem, NUMBERS)?;
    Ok(())
}

#[test]
fn flags_and_widths_are_printed(rt: HostRuntime) -> Result<(), Fail> {
    let mut mem = zeros(rt.alloc(), 17_825_792)?;
    store(&mut mem, STRING, b"abc\0");
    assert_all_printed(&rt, rt.alloc(), &mut mem, FLAGS)?;
    Ok(())
}

/// Bytes that are no format, with one argument, whatever it is: here the address of no string.
const MALFORMED: &[&[u8]] = &[
    b"%", b"a%", b"%5", b"%-", b"%0", b"%.", b"%.5", b"%l", b"%k", b"%n", b"%p", b"%f", b"%+d",
    b"% d", b"%#x", b"%*d", b"%00d", b"%--d", b"%0-0d", b"%5-d", b"%05s", b"%0s", b"%-05s",
    b"%05c", b"%0%", b"%-%", b"%5%", b"%l%", b"%.3d", b"%.d", b"%.3c", b"%4096d", b"%40950d",
    b"%.4096s", b"%lc", b"%ls", b"%hs", b"%hhhd", b"%lhd", b"%llld", b"%zzd", b"%d%d", b"%s%k",
    b"%s%",
];

/// Whether the format at A is refused by each print, and nothing is written or stored.
pub fn is_malformed(mem: &mut [u8], sink: &mut MemSink) -> bool
    requires { length mem.old ≡ memory_size }
{
    let written = answers(print_out(mem, sink, A, &[0]), 0, Answer::BadFormat);
    let stored = answers(
        print_mem(mem, TO, 0, 9, A, &[0], false),
        0,
        Answer::BadFormat,
    );
    let bounded = answers(
        print_mem(mem, TO, 9, 9, A, &[0], true),
        0,
        Answer::BadFormat,
    );
    let over = answers(print_mem(mem, TO, 9, 8, A, &[0], true), 0, Answer::Overflow);
    written && stored && bounded && over && sink.bytes().is_empty() && stand(mem, TO, b"\0")
}

fn assert_malformed(rt: &impl Abort, mem: &mut [u8], sink: &mut MemSink, number: usize)
    requires { length mem.old ≡ memory_size }
{
    if number < MALFORMED.len() {
        store(mem, A, MALFORMED[number]);
        let refused = is_malformed(mem, sink);
        clear(mem, A, MALFORMED[number].len());
        assert!(rt; refused, "row {number}");
    }
}

fn assert_all_malformed(rt: &impl Abort, mem: &mut [u8], sink: &mut MemSink)
    requires { length mem.old ≡ memory_size }
{
    for number in 0..MALFORMED.len() {
        assert_malformed(rt, mem, sink, number);
    }
}

#[test]
fn other_formats_are_refused(rt: HostRuntime) -> Result<(), Fail> {
    let mut mem = zeros(rt.alloc(), 17_825_792)?;
    let mut sink = MemSink::sized(rt.alloc(), 99)?;
    assert_all_malformed(&rt, &mut mem, &mut sink);
    Ok(())
}
