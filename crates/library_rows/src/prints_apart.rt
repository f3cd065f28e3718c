//! Prints beside what they read, past the valid addresses, of several arguments, of 4,095 characters, and over sinks of each room.

ghost use Rattle.std.specs.Prelude.{◌≡◌, length};
ghost use Rattle.library_meaning.specs.Memory.{memory_size};

use crate::calls::{Answer, answers};
use crate::memory::{A, END, NO_SIZE, clear, stand, store, zeros};
use fc_base::{MemSink, NoMemory};
use library_meaning::HostStop;
use mem_chk::memset_c;
use print_chk::{print_mem, print_out};
use std::alloc::Global;
use std::process::Abort;
use std::test::Fail;

/// A print into memory: the destination, the count of `snprintf` or none for `sprintf`, and the size; the format's address and its
/// arguments.
type Print = (u64, Option<u64>, u64, u64, &'static [u64]);

/// The bytes at A, the print, its answer, and the bytes there after it.
type Row = (&'static [u8], Print, Answer, &'static [u8]);

/// A print may store right before and right behind what it reads, and no byte that it reads: neither of a string, with its NUL where
/// that is read, nor of the format with its NUL.
const APART: &[Row] = &[
    // sprintf(A, "%s!", A)
    (
        b"ab\0..%s!\0",
        (A, None, NO_SIZE, A + 5, &[A]),
        Answer::BadAddress,
        b"ab\0..%s!\0",
    ),
    // right behind the string's NUL, and on it
    (
        b"ab\0....%s\0",
        (A + 3, None, 3, A + 7, &[A]),
        Answer::Number(2),
        b"ab\0ab\0.%s\0",
    ),
    (
        b"ab\0....%s\0",
        (A + 2, None, 3, A + 7, &[A]),
        Answer::BadAddress,
        b"ab\0....%s\0",
    ),
    // right before the string, and on its first byte
    (
        b"...ab\0.%s\0",
        (A, None, 3, A + 7, &[A + 3]),
        Answer::Number(2),
        b"ab\0ab\0.%s\0",
    ),
    (
        b"...ab\0.%s\0",
        (A + 1, None, 3, A + 7, &[A + 3]),
        Answer::BadAddress,
        b"...ab\0.%s\0",
    ),
    // a precision: the NUL isn't read, and the bytes behind the precision aren't either
    (
        b"ab\0....%.2s\0",
        (A + 2, None, 3, A + 7, &[A]),
        Answer::Number(2),
        b"abab\0..%.2s\0",
    ),
    (
        b"ab\0....%.1s\0",
        (A + 1, None, 2, A + 7, &[A]),
        Answer::Number(1),
        b"aa\0....%.1s\0",
    ),
    (
        b"ab\0....%.0s\0",
        (A, None, 1, A + 7, &[A]),
        Answer::Number(0),
        b"\0b\0....%.0s\0",
    ),
    (
        b"ab\0....%.3s\0",
        (A + 2, None, 3, A + 7, &[A]),
        Answer::BadAddress,
        b"ab\0....%.3s\0",
    ),
    // right behind the format's NUL, on it, right before it and on its first byte
    (
        b"hi\0....",
        (A + 3, None, 3, A, &[]),
        Answer::Number(2),
        b"hi\0hi\0.",
    ),
    (
        b"hi\0....",
        (A + 2, None, 3, A, &[]),
        Answer::BadAddress,
        b"hi\0....",
    ),
    (
        b"....hi\0",
        (A + 1, None, 3, A + 4, &[]),
        Answer::Number(2),
        b".hi\0hi\0",
    ),
    (
        b"....hi\0",
        (A + 2, None, 3, A + 4, &[]),
        Answer::BadAddress,
        b"....hi\0",
    ),
    // what is cut off is not stored
    (
        b"...ab\0.%s\0",
        (A + 1, Some(2), 2, A + 7, &[A + 3]),
        Answer::Number(2),
        b".a\0ab\0.%s\0",
    ),
    (
        b"...ab\0.%s\0",
        (A + 1, Some(3), 3, A + 7, &[A + 3]),
        Answer::BadAddress,
        b"...ab\0.%s\0",
    ),
    (
        b"ab\0.%s\0",
        (A, Some(0), 0, A + 4, &[A]),
        Answer::Number(2),
        b"ab\0.%s\0",
    ),
    // a size that is exceeded comes before that
    (
        b"ab\0....%s\0",
        (A + 2, None, 2, A + 7, &[A]),
        Answer::Overflow,
        b"ab\0....%s\0",
    ),
    (
        b"ab\0....%s\0",
        (A + 2, Some(4), 3, A + 7, &[A]),
        Answer::Overflow,
        b"ab\0....%s\0",
    ),
    // one string twice
    (
        b"ab\0....%s%s\0",
        (A + 20, None, 5, A + 7, &[A, A]),
        Answer::Number(4),
        b"ab\0....%s%s\0\0\0\0\0\0\0\0\0abab\0",
    ),
];

/// The last valid byte and one past it, the first and one before it, and no byte at address 0.
const EDGES: &[Row] = &[
    (
        b"%d\0",
        (END - 4, None, 4, A, &[123]),
        Answer::Number(3),
        b"%d\0",
    ),
    (
        b"%d\0",
        (END - 3, None, 4, A, &[123]),
        Answer::BadAddress,
        b"%d\0",
    ),
    (
        b"%d\0",
        (END - 3, Some(3), 3, A, &[123]),
        Answer::Number(3),
        b"%d\0",
    ),
    (
        b"%d\0",
        (END - 3, Some(9), 9, A, &[12]),
        Answer::Number(2),
        b"%d\0",
    ),
    (
        b"%d\0",
        (END, Some(1), 1, A, &[1]),
        Answer::BadAddress,
        b"%d\0",
    ),
    (
        b"%d\0",
        (65536, None, 2, A, &[1]),
        Answer::Number(1),
        b"%d\0",
    ),
    (
        b"%d\0",
        (65535, None, 2, A, &[1]),
        Answer::BadAddress,
        b"%d\0",
    ),
    (
        b"%d\0",
        (NO_SIZE, Some(1), 1, A, &[1]),
        Answer::BadAddress,
        b"%d\0",
    ),
    (
        b"%d\0",
        (0, Some(0), 0, A, &[1]),
        Answer::Number(1),
        b"%d\0",
    ),
    (b"%d\0", (0, Some(1), 0, A, &[1]), Answer::Overflow, b"%d\0"),
    (b"%d\0", (0, None, 1, A, &[1]), Answer::Overflow, b"%d\0"),
    // strings and formats that leave the valid addresses
    (
        b"%s\0",
        (A + 9, None, 9, A, &[0]),
        Answer::BadAddress,
        b"%s\0",
    ),
    (
        b"%s\0",
        (A + 9, None, 9, A, &[65535]),
        Answer::BadAddress,
        b"%s\0",
    ),
    (
        b"%s\0",
        (A + 9, None, 9, A, &[END]),
        Answer::BadAddress,
        b"%s\0",
    ),
    (
        b"%.0s\0",
        (A + 9, None, 9, A, &[0]),
        Answer::Number(0),
        b"%.0s\0",
    ),
    (
        b"%d\0",
        (A + 9, None, 9, 0, &[1]),
        Answer::BadAddress,
        b"%d\0",
    ),
    (
        b"%d\0",
        (A + 9, None, 9, END, &[1]),
        Answer::BadAddress,
        b"%d\0",
    ),
    // a format is read whole before its strings: the second conversion lacks an argument
    (
        b"%s%d\0",
        (A + 9, None, 9, A, &[0]),
        Answer::BadFormat,
        b"%s%d\0",
    ),
    // what is read to learn the request comes before the check of `sprintf`, and behind that of `snprintf`
    (
        b"%s\0",
        (A + 9, None, 0, A, &[0]),
        Answer::BadAddress,
        b"%s\0",
    ),
    (
        b"%k\0",
        (A + 9, None, 0, A, &[0]),
        Answer::BadFormat,
        b"%k\0",
    ),
    (
        b"%s\0",
        (A + 9, Some(9), 8, A, &[0]),
        Answer::Overflow,
        b"%s\0",
    ),
    (
        b"%s\0",
        (A + 9, Some(9), 8, 0, &[0]),
        Answer::Overflow,
        b"%s\0",
    ),
];

/// The rows of the buffers: `char b[6]` with `%d`, `char c[4]` with a count of 10, and a count of 0; and a text of several arguments.
const BUFFERS: &[Row] = &[
    (
        b"%d\0.......",
        (A + 3, None, 6, A, &[12345]),
        Answer::Number(5),
        b"%d\x0012345\0.",
    ),
    (
        b"%d\0.......",
        (A + 3, None, 6, A, &[123456]),
        Answer::Overflow,
        b"%d\0.......",
    ),
    (
        b"hi\0....",
        (A + 3, Some(10), 4, A, &[]),
        Answer::Overflow,
        b"hi\0....",
    ),
    (
        b"hi\0....",
        (A + 3, Some(10), NO_SIZE, A, &[]),
        Answer::Number(2),
        b"hi\0hi\0.",
    ),
    (
        b"%05d|%-3s|\0a\0",
        (0, Some(0), 0, A, &[42, A + 11]),
        Answer::Number(10),
        b"%05d|%-3s|\0a\0",
    ),
    (
        b"%d %s %05lx\0ab\0",
        (A + 20, None, 12, A, &[7, A + 12, 255]),
        Answer::Number(10),
        b"%d %s %05lx\0ab\0\0\0\0\0\x007 ab 000ff\0",
    ),
    (
        b"%c%c\0...",
        (A + 5, None, 3, A, &[0, 65]),
        Answer::Number(2),
        b"%c%c\0\0A\0",
    ),
    (
        b"%d\0..",
        (A + 3, None, 2, A, &[1, 2, 3]),
        Answer::Number(1),
        b"%d\x001\0",
    ),
    (
        b"%d\0.......",
        (A + 3, None, 7, A, &[12345]),
        Answer::Number(5),
        b"%d\x0012345\0.",
    ),
    (
        b"hi\0....",
        (A + 3, Some(4), 4, A, &[]),
        Answer::Number(2),
        b"hi\0hi\0.",
    ),
    (
        b"hi\0....",
        (A + 3, Some(3), 4, A, &[]),
        Answer::Number(2),
        b"hi\0hi\0.",
    ),
    (
        b"hi\0....",
        (A + 3, Some(2), 4, A, &[]),
        Answer::Number(2),
        b"hi\0h\0..",
    ),
    (
        b"hi\0....",
        (A + 3, Some(1), 4, A, &[]),
        Answer::Number(2),
        b"hi\0\0...",
    ),
    (
        b"hi\0....",
        (A + 3, Some(5), 4, A, &[]),
        Answer::Overflow,
        b"hi\0....",
    ),
];

/// Texts that go up to the end of memory without a NUL, where `ab` stands at its end.
const LEAVING: &[Row] = &[
    (
        b"%s\0",
        (A + 9, None, 9, A, &[END - 2]),
        Answer::BadAddress,
        b"%s\0",
    ),
    (
        b"%.3s\0",
        (A + 9, None, 9, A, &[END - 2]),
        Answer::BadAddress,
        b"%.3s\0",
    ),
    (
        b"%.2s\0....",
        (A + 5, None, 3, A, &[END - 2]),
        Answer::Number(2),
        b"%.2s\0ab\0.",
    ),
    (
        b"%.2s\0....",
        (A + 5, Some(0), 0, A, &[END - 1]),
        Answer::BadAddress,
        b"%.2s\0....",
    ),
    (
        b"....",
        (A, None, 4, END - 2, &[]),
        Answer::BadAddress,
        b"....",
    ),
    (
        b"....",
        (A, Some(4), 4, END - 1, &[]),
        Answer::BadAddress,
        b"....",
    ),
    (
        b"....",
        (A, Some(0), 0, END, &[]),
        Answer::BadAddress,
        b"....",
    ),
];

/// A format that ends at the last valid byte, and strings that do, where `%s` and a NUL stand at the end of memory.
const ENDING: &[Row] = &[
    (
        b"....",
        (A, None, 3, END - 3, &[END - 3]),
        Answer::Number(2),
        b"%s\0.",
    ),
    (
        b"....",
        (A, Some(2), 2, END - 3, &[END - 1]),
        Answer::Number(0),
        b"\0...",
    ),
];

fn print(mem: &mut [u8], print: Print) -> Result<u64, HostStop>
    requires { length mem.old ≡ memory_size }
{
    let (to, count, size, format, args) = print;
    match count {
        Some(n) => print_mem(mem, to, n, size, format, args, true),
        None => print_mem(mem, to, 0, size, format, args, false),
    }
}

fn assert_row(rt: &impl Abort, mem: &mut [u8], number: usize, row: &Row)
    requires { length mem.old ≡ memory_size }
{
    let (before, call, answer, after) = *row;
    store(mem, A, before);
    let found = print(mem, call);
    let same = answers(found, 0, answer) && stand(mem, A, after);
    clear(mem, A, 64);
    assert!(rt; same, "row {number}");
}

fn assert_rows(rt: &impl Abort, mem: &mut [u8], rows: &[Row])
    requires { length mem.old ≡ memory_size }
{
    for number in 0..rows.len() {
        assert_row(rt, mem, number, &rows[number]);
    }
}

#[test]
fn prints_store_apart_from_what_they_read(rt: HostRuntime) -> Result<(), Fail> {
    let mut mem = zeros(rt.alloc(), 17_825_792)?;
    assert_rows(&rt, &mut mem, APART);
    Ok(())
}

#[test]
fn prints_touch_valid_addresses(rt: HostRuntime) -> Result<(), Fail> {
    let mut mem = zeros(rt.alloc(), 17_825_792)?;
    assert_rows(&rt, &mut mem, EDGES);
    Ok(())
}

#[test]
fn prints_stop_at_the_end_of_memory(rt: HostRuntime) -> Result<(), Fail> {
    let mut mem = zeros(rt.alloc(), 17_825_792)?;
    store(&mut mem, END - 2, b"ab");
    assert_rows(&rt, &mut mem, LEAVING);
    Ok(())
}

#[test]
fn prints_read_up_to_the_end_of_memory(rt: HostRuntime) -> Result<(), Fail> {
    let mut mem = zeros(rt.alloc(), 17_825_792)?;
    store(&mut mem, END - 3, b"%s\0");
    assert_rows(&rt, &mut mem, ENDING);
    Ok(())
}

#[test]
fn prints_fit_their_buffers(rt: HostRuntime) -> Result<(), Fail> {
    let mut mem = zeros(rt.alloc(), 17_825_792)?;
    assert_rows(&rt, &mut mem, BUFFERS);
    Ok(())
}

/// Where a string of 4,096 times the letter z stands, which a precision of 4,095 cuts.
const LONG: u64 = A + 8192;

/// A format at A of 4,095 characters, its argument, the character that fills it, and its last or first one.
type Wide = (&'static [u8], u64, u8, u8, bool);

const WIDE: &[Wide] = &[
    (b"%4095d", 7, b' ', b'7', false),
    (b"%04095d", 7, b'0', b'7', false),
    (b"%-4095d", 7, b' ', b'7', true),
    (b"%4095lu", 7, b' ', b'7', false),
    (b"%4095x", 10, b' ', b'a', false),
    (b"%04095X", 10, b'0', b'A', false),
    (b"%4095o", 7, b' ', b'7', false),
    (b"%4095c", 65, b' ', b'A', false),
    (b"%-4095c", 0, b' ', 0, true),
    (b"%4095s", A + 16, b' ', b'z', false),
    (b"%-4095.1s", A + 16, b' ', b'z', true),
    (b"%4095.4095s", A + 16, b' ', b'z', false),
    (b"%.4095s", LONG, b'z', b'z', false),
    (b"%1.4095s", LONG, b'z', b'z', false),
    (b"%-4095.4095s", LONG, b'z', b'z', true),
];

/// Whether bytes are 4,095 of this filler but for the first or the last.
fn is_filled(bytes: &[u8], filler: u8, other: u8, first: bool) -> bool {
    let place = if first { 0 } else { 4094 };
    for k in 0..bytes.len() {
        let wanted = if k == place { other } else { filler };
        if bytes[k] != wanted {
            return false;
        }
    }
    bytes.len() == 4095
}

fn assert_wide(rt: &impl Abort, alloc: Global, mem: &mut [u8], row: &Wide) -> Result<(), NoMemory>
    requires { length mem.old ≡ memory_size }
{
    let (format, value, filler, other, first) = *row;
    store(mem, A, format);
    let mut sink = MemSink::sized(alloc, 4095)?;
    let written = answers(
        print_out(mem, &mut sink, A, &[value]),
        0,
        Answer::Number(4095),
    ) && is_filled(sink.bytes(), filler, other, first);
    let stored = answers(
        print_mem(mem, A + 100, 0, 4096, A, &[value], false),
        0,
        Answer::Number(4095),
    ) && stand(mem, A + 100, sink.bytes());
    clear(mem, A, 16);
    assert!(rt; written && stored);
    Ok(())
}

#[test]
fn wide_texts_are_printed(rt: HostRuntime) -> Result<(), Fail> {
    let mut mem = zeros(rt.alloc(), 17_825_792)?;
    store(&mut mem, A + 16, b"z\0");
    let _long = memset_c(&mut mem, LONG, 122, 4096, NO_SIZE);
    for row in WIDE {
        assert_wide(&rt, rt.alloc(), &mut mem, row)?;
    }
    Ok(())
}

/// A sink of a room takes a front of the text, and fails where the room is too small.
fn assert_room(rt: &impl Abort, alloc: Global, mem: &[u8], room: usize) -> Result<(), NoMemory>
    requires { length mem.now ≡ memory_size }
{
    let text = b"<   -7|ab  |00ff>";
    let front = &text[..text.len().min(room)];
    let mut sink = MemSink::sized(alloc, room)?;
    let same = match print_out(mem, &mut sink, A, &[18446744073709551609, A + 32, 255]) {
        Ok(n) => n == 17 && room >= 17,
        Err(HostStop::SinkFault) => room < 17,
        Err(_) => false,
    };
    assert!(rt; same && sink.bytes() == front, "room {room}");
    Ok(())
}

#[test]
fn sinks_of_each_room_take_a_front(rt: HostRuntime) -> Result<(), Fail> {
    let mut mem = zeros(rt.alloc(), 17_825_792)?;
    store(&mut mem, A, b"<%5d|%-4s|%04x>\0");
    store(&mut mem, A + 32, b"ab\0");
    for room in 0..19 {
        assert_room(&rt, rt.alloc(), &mem, room)?;
    }
    Ok(())
}

/// Prints that stop before a byte is written, of one argument.
const UNWRITTEN: &[(&[u8], u64)] = &[
    (b"ab%s", 0),
    (b"ab%s", 65535),
    (b"ab%s", END),
    (b"ab%s", END - 1),
    (b"ab%.2s", END - 1),
];

fn assert_unwritten(rt: &impl Abort, alloc: Global, mem: &mut [u8]) -> Result<(), NoMemory>
    requires { length mem.old ≡ memory_size }
{
    let mut sink = MemSink::sized(alloc, 9)?;
    for &(format, value) in UNWRITTEN {
        store(mem, A, format);
        let found = print_out(mem, &mut sink, A, &[value]);
        let same = answers(found, 0, Answer::BadAddress) && sink.bytes().is_empty();
        clear(mem, A, 9);
        assert!(rt; same);
    }
    let open = answers(
        print_out(mem, &mut sink, END - 1, &[]),
        0,
        Answer::BadAddress,
    );
    let past = answers(print_out(mem, &mut sink, END, &[]), 0, Answer::BadAddress);
    let none = answers(print_out(mem, &mut sink, A, &[]), 0, Answer::Number(0));
    store(mem, A, b"%d");
    let missing = answers(print_out(mem, &mut sink, A, &[]), 0, Answer::BadFormat);
    assert!(rt; open && past && none && missing && sink.bytes().is_empty());
    Ok(())
}

#[test]
fn nothing_is_printed_past_an_address(rt: HostRuntime) -> Result<(), Fail> {
    let mut mem = zeros(rt.alloc(), 17_825_792)?;
    store(&mut mem, END - 1, b"a");
    assert_unwritten(&rt, rt.alloc(), &mut mem)?;
    Ok(())
}
