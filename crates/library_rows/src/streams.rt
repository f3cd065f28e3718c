//! Calls that write on a sink and take from a source (C11 7.21.7; POSIX's `read` and `write`).

ghost use Rattle.std.specs.Prelude.{◌≡◌, ◌≤◌, length};
ghost use Rattle.library_meaning.specs.Memory.{memory_size};

use crate::calls::{Answer, answers};
use crate::memory::{A, END, NO_SIZE, stand, store, zeros};
use fc_base::{MemSink, MemSource, NoMemory};
use fd_chk::{getchar_c, putchar_c, puts_c, read_c, write_c};
use library_meaning::HostStop;
use std::alloc::Global;
use std::process::Abort;
use std::test::Fail;

/// A call that writes the text at A or at the end of memory, which is `ab`, or one character.
#[derive(Clone, Copy)]
enum Output {
    Write(u64, u64),
    Puts(u64),
    Putchar(u64),
}

/// A call, what it writes, and what it gives where there is room.
type Written = (Output, &'static [u8], u64);

const WRITTEN: &[Written] = &[
    (Output::Write(A, 2), b"ab", 2),
    (Output::Write(A, 3), b"ab\0", 3),
    (Output::Write(0, 0), b"", 0),
    (Output::Puts(A), b"ab\n", 3),
    (Output::Puts(A + 2), b"\n", 1),
    (Output::Putchar(65), b"A", 65),
    (Output::Putchar(321), b"A", 65),
    (Output::Putchar(NO_SIZE), b"\xff", 255),
    // up to the last valid byte, and from the first one
    (Output::Write(END - 3, 3), b"ab\0", 3),
    (Output::Write(END - 1, 1), b"\0", 1),
    (Output::Write(65536, 1), b"\0", 1),
    (Output::Puts(END - 3), b"ab\n", 3),
    (Output::Puts(END - 1), b"\n", 1),
];

fn written(mem: &[u8], sink: &mut MemSink, call: Output) -> Result<u64, HostStop>
    requires { length mem.now ≡ memory_size }
{
    match call {
        Output::Write(s, n) => write_c(mem, sink, s, n),
        Output::Puts(s) => puts_c(mem, sink, s),
        Output::Putchar(c) => putchar_c(sink, c),
    }
}

/// Whether a sink of this room holds as much of the text as there is room for, and fails where it is too small.
fn fits(found: Result<u64, HostStop>, held: &[u8], text: &[u8], room: usize, gives: u64) -> bool {
    let front = &text[..text.len().min(room)];
    let same = match found {
        Ok(n) => n == gives && room >= text.len(),
        Err(HostStop::SinkFault) => room < text.len(),
        Err(_) => false,
    };
    same && held == front
}

fn assert_room(
    rt: &impl Abort,
    alloc: Global,
    mem: &[u8],
    room: usize,
    row: &Written,
) -> Result<(), NoMemory>
    requires { length mem.now ≡ memory_size }
{
    let (call, text, gives) = *row;
    let mut sink = MemSink::sized(alloc, room)?;
    let found = written(mem, &mut sink, call);
    let same = fits(found, sink.bytes(), text, room, gives);
    assert!(rt; same, "room {room} of {}", text.len());
    Ok(())
}

/// Asserts the call over a sink of each room up to its text's length, and one more.
fn assert_written(rt: &impl Abort, alloc: Global, mem: &[u8], row: &Written) -> Result<(), NoMemory>
    requires { length mem.now ≡ memory_size }
{
    for room in 0..5 {
        assert_room(rt, alloc, mem, room, row)?;
    }
    Ok(())
}

fn assert_all_written(rt: &impl Abort, alloc: Global, mem: &[u8]) -> Result<(), NoMemory>
    requires { length mem.now ≡ memory_size }
{
    for row in WRITTEN {
        assert_written(rt, alloc, mem, row)?;
    }
    Ok(())
}

#[test]
fn sinks_of_each_room_are_written(rt: HostRuntime) -> Result<(), Fail> {
    let mut mem = zeros(rt.alloc(), 17_825_792)?;
    store(&mut mem, A, b"ab\0");
    store(&mut mem, END - 3, b"ab\0");
    assert_all_written(&rt, rt.alloc(), &mem)?;
    Ok(())
}

/// Calls that stop before a byte is written.
const UNWRITTEN: &[Output] = &[
    Output::Write(END - 2, 3),
    Output::Write(END, 1),
    Output::Write(65535, 1),
    Output::Puts(END - 2),
    Output::Puts(END),
    Output::Puts(0),
];

fn assert_unwritten(rt: &impl Abort, alloc: Global, mem: &[u8]) -> Result<(), NoMemory>
    requires { length mem.now ≡ memory_size }
{
    let mut sink = MemSink::sized(alloc, 9)?;
    for &call in UNWRITTEN {
        let found = written(mem, &mut sink, call);
        let same = answers(found, 0, Answer::BadAddress) && sink.bytes().is_empty();
        assert!(rt; same);
    }
    Ok(())
}

#[test]
fn nothing_is_written_past_an_address(rt: HostRuntime) -> Result<(), Fail> {
    let mut mem = zeros(rt.alloc(), 17_825_792)?;
    store(&mut mem, END - 2, b"ab");
    assert_unwritten(&rt, rt.alloc(), &mem)?;
    Ok(())
}

/// The place, count and size of a read from a source of `abc`, its answer, what stands there then, where `....` stood, and the
/// character that comes next.
type Taken = (u64, u64, u64, Answer, &'static [u8], u64);

const TAKEN: &[Taken] = &[
    (A, 2, 1, Answer::Overflow, b"....", 97),
    (A, 2, 2, Answer::Number(2), b"ab..", 99),
    (A, 2, 3, Answer::Number(2), b"ab..", 99),
    (A, 3, 3, Answer::Number(3), b"abc.", NO_SIZE),
    (A, 4, 4, Answer::Number(3), b"abc.", NO_SIZE),
    (A, 5, 4, Answer::Overflow, b"....", 97),
    (A, 0, 0, Answer::Number(0), b"....", 97),
    (0, 0, 0, Answer::Number(0), b"", 97),
    (A, 9_000_000, NO_SIZE, Answer::Number(3), b"abc.", NO_SIZE),
    (END - 4, 4, 4, Answer::Number(3), b"abc.", NO_SIZE),
    (END - 4, 5, 5, Answer::BadAddress, b"....", 97),
    (END - 4, 5, 4, Answer::Overflow, b"....", 97),
    (END, 1, 1, Answer::BadAddress, b"", 97),
    (65535, 1, 1, Answer::BadAddress, b"", 97),
];

fn assert_taken(rt: &impl Abort, alloc: Global, mem: &mut [u8], row: &Taken) -> Result<(), NoMemory>
    requires { length mem.old ≡ memory_size }
{
    let (d, n, size, answer, after, next) = *row;
    let mut source = MemSource::new(alloc, b"abc")?;
    if d >= A {
        store(mem, d, b"....");
    }
    let found = read_c(mem, &mut source, d, n, size);
    let same = answers(found, 0, answer) && stand(mem, d, after);
    let last = answers(getchar_c(&mut source), 0, Answer::Number(next));
    assert!(rt; same && last, "{d} {n} {size}");
    Ok(())
}

fn assert_all_taken(rt: &impl Abort, alloc: Global, mem: &mut [u8]) -> Result<(), NoMemory>
    requires { length mem.old ≡ memory_size }
{
    for row in TAKEN {
        assert_taken(rt, alloc, mem, row)?;
    }
    Ok(())
}

#[test]
fn bytes_are_taken(rt: HostRuntime) -> Result<(), Fail> {
    let mut mem = zeros(rt.alloc(), 17_825_792)?;
    assert_all_taken(&rt, rt.alloc(), &mut mem)?;
    Ok(())
}

fn is_fault(found: Result<u64, HostStop>) -> bool {
    match found {
        Err(HostStop::InputFault) => true,
        _ => false,
    }
}

/// A source that fails at a place: a read that needs no more than stands before it is answered, one that needs more faults, and one
/// of no byte asks for nothing.
fn assert_faults(rt: &impl Abort, alloc: Global, mem: &mut [u8], at: u64) -> Result<(), NoMemory>
    requires memory { length mem.old ≡ memory_size }
    requires at { at ≤ 3 }
{
    let mut source = MemSource::failing(alloc, b"abc", at)?;
    let none = answers(read_c(mem, &mut source, A, 0, 0), 0, Answer::Number(0));
    let front = answers(read_c(mem, &mut source, A, at, at), 0, Answer::Number(at));
    let read = is_fault(read_c(mem, &mut source, A, 1, 1));
    let character = is_fault(getchar_c(&mut source));
    let mut other = MemSource::failing(alloc, b"abc", at)?;
    let whole = is_fault(read_c(mem, &mut other, A, 4, 4));
    assert!(rt; none && front && read && character && whole, "at {at}");
    Ok(())
}

#[test]
fn sources_fail(rt: HostRuntime) -> Result<(), Fail> {
    let mut mem = zeros(rt.alloc(), 17_825_792)?;
    for at in 0..4 {
        assert_faults(&rt, rt.alloc(), &mut mem, at)?;
    }
    Ok(())
}
