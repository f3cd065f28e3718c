//! Calls that go up to a NUL (C11 7.24.2.3, 7.24.2.4, 7.24.3, 7.24.4.2, 7.24.5.2, 7.24.6.3; POSIX's `stpcpy`).

use crate::calls::{Answer, Call, Row, assert_table};
use crate::memory::{A, END, NO_SIZE};
use std::test::Fail;

/// A size one too small, exact and one more: the checked copy fails where the text with its NUL is over the size, and
/// `strncpy` where its count is.
const SIZES: &[Row] = &[
    (
        A,
        b"abcd\0.vwxyz.",
        Call::Strcpy(6, 0, 4),
        Answer::Overflow,
        b"abcd\0.vwxyz.",
    ),
    (
        A,
        b"abcd\0.vwxyz.",
        Call::Strcpy(6, 0, 5),
        Answer::At(6),
        b"abcd\0.abcd\0.",
    ),
    (
        A,
        b"abcd\0.vwxyz.",
        Call::Strcpy(6, 0, 6),
        Answer::At(6),
        b"abcd\0.abcd\0.",
    ),
    (
        A,
        b"abcde\0vwxyz.",
        Call::Strcpy(6, 0, 5),
        Answer::Overflow,
        b"abcde\0vwxyz.",
    ),
    (A, b"\0a", Call::Strcpy(1, 0, 0), Answer::Overflow, b"\0a"),
    (A, b"\0a", Call::Strcpy(1, 0, 1), Answer::At(1), b"\0\0"),
    (
        A,
        b"abcd\0.vwxyz.",
        Call::Stpcpy(6, 0, 4),
        Answer::Overflow,
        b"abcd\0.vwxyz.",
    ),
    (
        A,
        b"abcd\0.vwxyz.",
        Call::Stpcpy(6, 0, 5),
        Answer::At(10),
        b"abcd\0.abcd\0.",
    ),
    (
        A,
        b"abcd\0.vwxyz.",
        Call::Stpcpy(6, 0, 6),
        Answer::At(10),
        b"abcd\0.abcd\0.",
    ),
    (
        A,
        b"ab\0...uvwxyz",
        Call::Strncpy(6, 0, 5, 4),
        Answer::Overflow,
        b"ab\0...uvwxyz",
    ),
    (
        A,
        b"ab\0...uvwxyz",
        Call::Strncpy(6, 0, 5, 5),
        Answer::At(6),
        b"ab\0...ab\0\0\0z",
    ),
    (
        A,
        b"ab\0...uvwxyz",
        Call::Strncpy(6, 0, 5, 6),
        Answer::At(6),
        b"ab\0...ab\0\0\0z",
    ),
    (
        A,
        b"ab\0...uvwxyz",
        Call::Strncpy(6, 0, 2, 2),
        Answer::At(6),
        b"ab\0...abwxyz",
    ),
    (
        A,
        b"ab\0...uvwxyz",
        Call::Strncpy(6, 0, 3, 3),
        Answer::At(6),
        b"ab\0...ab\0xyz",
    ),
];

/// What is appended with what stands there and a NUL, against the size; and a destination without a NUL within it.
const APPENDED: &[Row] = &[
    (
        A,
        b"ab\0......xy\0",
        Call::Strcat(0, 9, 4),
        Answer::Overflow,
        b"ab\0......xy\0",
    ),
    (
        A,
        b"ab\0......xy\0",
        Call::Strcat(0, 9, 5),
        Answer::At(0),
        b"abxy\0....xy\0",
    ),
    (
        A,
        b"ab\0......xy\0",
        Call::Strcat(0, 9, 6),
        Answer::At(0),
        b"abxy\0....xy\0",
    ),
    (
        A,
        b"ab\0......xy\0",
        Call::Strcat(0, 9, NO_SIZE),
        Answer::At(0),
        b"abxy\0....xy\0",
    ),
    (
        A,
        b"AAAA\0",
        Call::Strcat(0, 4, 4),
        Answer::Overflow,
        b"AAAA\0",
    ),
    (
        A,
        b"AAA\0x\0",
        Call::Strcat(0, 4, 4),
        Answer::Overflow,
        b"AAA\0x\0",
    ),
    (
        A,
        b"AAA\0\0",
        Call::Strcat(0, 4, 4),
        Answer::At(0),
        b"AAA\0\0",
    ),
    (
        A,
        b"ab\0.....xyz\0",
        Call::Strncat(0, 8, 2, 4),
        Answer::Overflow,
        b"ab\0.....xyz\0",
    ),
    (
        A,
        b"ab\0.....xyz\0",
        Call::Strncat(0, 8, 2, 5),
        Answer::At(0),
        b"abxy\0...xyz\0",
    ),
    (
        A,
        b"ab\0.....xyz\0",
        Call::Strncat(0, 8, 2, 6),
        Answer::At(0),
        b"abxy\0...xyz\0",
    ),
    (
        A,
        b"ab\0.....xyz\0",
        Call::Strncat(0, 8, 3, 5),
        Answer::Overflow,
        b"ab\0.....xyz\0",
    ),
    (
        A,
        b"ab\0.....xyz\0",
        Call::Strncat(0, 8, 9, 6),
        Answer::At(0),
        b"abxyz\0..xyz\0",
    ),
    (
        A,
        b"ab\0.....xyz\0",
        Call::Strncat(0, 8, 0, 3),
        Answer::At(0),
        b"ab\0.....xyz\0",
    ),
    (
        A,
        b"AAAA\0",
        Call::Strncat(0, 4, 0, 4),
        Answer::Overflow,
        b"AAAA\0",
    ),
];

/// Texts that overlap, as if through a copy.
const OVERLAPS: &[Row] = &[
    (
        A,
        b"abcd\0....",
        Call::Strcpy(1, 0, 5),
        Answer::At(1),
        b"aabcd\0...",
    ),
    (
        A,
        b"abcd\0....",
        Call::Strcpy(0, 1, 5),
        Answer::At(0),
        b"bcd\0\0....",
    ),
    (
        A,
        b"abcd\0....",
        Call::Strcpy(4, 0, 5),
        Answer::At(4),
        b"abcdabcd\0",
    ),
    (
        A,
        b"abcd\0....",
        Call::Stpcpy(1, 0, 5),
        Answer::At(5),
        b"aabcd\0...",
    ),
    (
        A,
        b"abcd\0....",
        Call::Stpcpy(0, 1, 5),
        Answer::At(3),
        b"bcd\0\0....",
    ),
    (
        A,
        b"abcd\0....",
        Call::Strncpy(1, 0, 5, 5),
        Answer::At(1),
        b"aabcd\0...",
    ),
    (
        A,
        b"abcd\0....",
        Call::Strncpy(0, 1, 5, 5),
        Answer::At(0),
        b"bcd\0\0....",
    ),
    (
        A,
        b"ab\0......",
        Call::Strcat(0, 0, 5),
        Answer::At(0),
        b"abab\0....",
    ),
    (
        A,
        b"ab\0......",
        Call::Strcat(0, 1, 5),
        Answer::At(0),
        b"abb\0.....",
    ),
    (
        A,
        b"ab\0......",
        Call::Strncat(0, 0, 2, 5),
        Answer::At(0),
        b"abab\0....",
    ),
    (
        A,
        b"....abcd\0",
        Call::Strcpy(0, 4, 5),
        Answer::At(0),
        b"abcd\0bcd\0",
    ),
    (
        A,
        b"abcd\0....",
        Call::Stpcpy(4, 0, 5),
        Answer::At(8),
        b"abcdabcd\0",
    ),
    (
        A,
        b"....abcd\0",
        Call::Stpcpy(0, 4, 5),
        Answer::At(4),
        b"abcd\0bcd\0",
    ),
    (
        A,
        b"abcd\0....",
        Call::Strncpy(4, 0, 5, 5),
        Answer::At(4),
        b"abcdabcd\0",
    ),
    (
        A,
        b"....abcd\0",
        Call::Strncpy(0, 4, 5, 5),
        Answer::At(0),
        b"abcd\0bcd\0",
    ),
    (
        A,
        b"ab\0.xy\0",
        Call::Strcat(0, 4, 5),
        Answer::At(0),
        b"abxy\0y\0",
    ),
    (
        A,
        b"ab\0.xy\0",
        Call::Strncat(0, 4, 2, 5),
        Answer::At(0),
        b"abxy\0y\0",
    ),
    (
        A,
        b"ab\0......",
        Call::Strncat(0, 1, 2, 5),
        Answer::At(0),
        b"abb\0.....",
    ),
];

/// A text without a NUL up to the end of memory, one that ends at the last valid byte, and addresses that are not valid. The
/// checked copies stop at their size before they leave memory.
const EDGES: &[Row] = &[
    (END - 3, b"abc", Call::Strlen(0), Answer::BadAddress, b"abc"),
    (
        END - 3,
        b"ab\0",
        Call::Strlen(0),
        Answer::Number(2),
        b"ab\0",
    ),
    (
        END - 3,
        b"ab\0",
        Call::Strlen(2),
        Answer::Number(0),
        b"ab\0",
    ),
    (
        END - 3,
        b"ab\0",
        Call::Strlen(3),
        Answer::BadAddress,
        b"ab\0",
    ),
    (0, b"", Call::Strlen(65535), Answer::BadAddress, b""),
    (0, b"", Call::Strlen(NO_SIZE), Answer::BadAddress, b""),
    (0, b"", Call::Strlen(65536), Answer::Number(0), b""),
    (
        END - 8,
        b"....vabc",
        Call::Strcpy(0, 5, NO_SIZE),
        Answer::BadAddress,
        b"....vabc",
    ),
    (
        END - 8,
        b"....vabc",
        Call::Strcpy(0, 5, 3),
        Answer::Overflow,
        b"....vabc",
    ),
    (
        END - 8,
        b"....vabc",
        Call::Strcpy(0, 5, 4),
        Answer::BadAddress,
        b"....vabc",
    ),
    (
        END - 8,
        b"abc\0....",
        Call::Strcpy(4, 0, 4),
        Answer::At(4),
        b"abc\0abc\0",
    ),
    (
        END - 8,
        b"abc\0....",
        Call::Strcpy(5, 0, 4),
        Answer::BadAddress,
        b"abc\0....",
    ),
    (
        END - 8,
        b"abc\0....",
        Call::Strcpy(5, 0, 3),
        Answer::Overflow,
        b"abc\0....",
    ),
    (
        END - 8,
        b"abc\0....",
        Call::Stpcpy(4, 0, 4),
        Answer::At(7),
        b"abc\0abc\0",
    ),
    (
        END - 8,
        b"abc\0....",
        Call::Stpcpy(5, 0, 4),
        Answer::BadAddress,
        b"abc\0....",
    ),
    (
        END - 8,
        b"....vabc",
        Call::Strncpy(0, 5, 3, 3),
        Answer::At(0),
        b"abc.vabc",
    ),
    (
        END - 8,
        b"....vabc",
        Call::Strncpy(0, 5, 4, 4),
        Answer::BadAddress,
        b"....vabc",
    ),
    (
        END - 8,
        b"a\0......",
        Call::Strncpy(3, 0, 5, 5),
        Answer::At(3),
        b"a\0.a\0\0\0\0",
    ),
    (
        END - 8,
        b"a\0......",
        Call::Strncpy(4, 0, 5, 5),
        Answer::BadAddress,
        b"a\0......",
    ),
    (0, b"", Call::Strncpy(0, 0, 0, 0), Answer::Number(0), b""),
    (
        END - 8,
        b"xy\0.ab\0.",
        Call::Strcat(4, 1, 4),
        Answer::At(4),
        b"xy\0.aby\0",
    ),
    (
        END - 8,
        b"xy\0.ab\0.",
        Call::Strcat(4, 0, NO_SIZE),
        Answer::BadAddress,
        b"xy\0.ab\0.",
    ),
    (
        END - 8,
        b"xy\0.abcd",
        Call::Strcat(4, 0, NO_SIZE),
        Answer::BadAddress,
        b"xy\0.abcd",
    ),
    (
        END - 8,
        b"xy\0.abcd",
        Call::Strcat(4, 0, 4),
        Answer::Overflow,
        b"xy\0.abcd",
    ),
    (
        END - 8,
        b"ab\0..xyz",
        Call::Strcat(0, 5, NO_SIZE),
        Answer::BadAddress,
        b"ab\0..xyz",
    ),
    (
        END - 8,
        b"ab\0..xyz",
        Call::Strncat(0, 5, 2, NO_SIZE),
        Answer::At(0),
        b"abxy\0xyz",
    ),
    (
        END - 8,
        b"ab\0..xyz",
        Call::Strncat(0, 5, 4, NO_SIZE),
        Answer::BadAddress,
        b"ab\0..xyz",
    ),
    (
        END - 8,
        b"ab\0..xyz",
        Call::Strncat(0, 8, 0, 3),
        Answer::At(0),
        b"ab\0..xyz",
    ),
    (
        END - 8,
        b"....vabc",
        Call::Stpcpy(0, 5, NO_SIZE),
        Answer::BadAddress,
        b"....vabc",
    ),
    (
        END - 8,
        b"xyz\0.ab\0",
        Call::Strncat(5, 0, 0, 3),
        Answer::At(5),
        b"xyz\0.ab\0",
    ),
    (
        END - 8,
        b"xyz\0.ab\0",
        Call::Strncat(5, 0, 1, 4),
        Answer::BadAddress,
        b"xyz\0.ab\0",
    ),
    (
        A,
        b"ab\0",
        Call::Strncat(0, NO_SIZE - A + 1, 0, 3),
        Answer::At(0),
        b"ab\0",
    ),
    (
        END - 8,
        b"....abc\0",
        Call::Strcpy(0, 4, 4),
        Answer::At(0),
        b"abc\0abc\0",
    ),
    (
        END - 8,
        b"....abc\0",
        Call::Strcpy(0, 8, NO_SIZE),
        Answer::BadAddress,
        b"....abc\0",
    ),
    (
        END - 8,
        b"....abc\0",
        Call::Stpcpy(0, 4, 4),
        Answer::At(3),
        b"abc\0abc\0",
    ),
    (
        END - 8,
        b"....abc\0",
        Call::Stpcpy(0, 8, NO_SIZE),
        Answer::BadAddress,
        b"....abc\0",
    ),
    (
        END - 8,
        b"ab\0..xy\0",
        Call::Strcat(0, 5, 5),
        Answer::At(0),
        b"abxy\0xy\0",
    ),
    (
        END - 8,
        b"ab\0..xy\0",
        Call::Strcat(0, 8, 5),
        Answer::BadAddress,
        b"ab\0..xy\0",
    ),
    (
        END - 8,
        b"ab\0..xyz",
        Call::Strncat(0, 5, 3, 6),
        Answer::At(0),
        b"abxyz\0yz",
    ),
    (
        END - 8,
        b"xy\0.abcd",
        Call::Strncat(4, 0, 1, NO_SIZE),
        Answer::BadAddress,
        b"xy\0.abcd",
    ),
    (
        END - 8,
        b"xy\0.abcd",
        Call::Strncat(8, 0, 0, NO_SIZE),
        Answer::BadAddress,
        b"xy\0.abcd",
    ),
];

/// The order of texts, up to the first bytes that differ or a NUL, and no byte further.
const ORDERS: &[Row] = &[
    (
        A,
        b"abc\0abc\0",
        Call::Strcmp(0, 4),
        Answer::Number(0),
        b"abc\0abc\0",
    ),
    (
        A,
        b"abc\0abd\0",
        Call::Strcmp(0, 4),
        Answer::Number(NO_SIZE),
        b"abc\0abd\0",
    ),
    (
        A,
        b"abd\0abc\0",
        Call::Strcmp(0, 4),
        Answer::Number(1),
        b"abd\0abc\0",
    ),
    (
        A,
        b"ab\0abc\0",
        Call::Strcmp(0, 3),
        Answer::Number(NO_SIZE),
        b"ab\0abc\0",
    ),
    (
        A,
        b"abc\0ab\0",
        Call::Strcmp(0, 4),
        Answer::Number(1),
        b"abc\0ab\0",
    ),
    (
        A,
        b"ab\0xab\0y",
        Call::Strcmp(0, 4),
        Answer::Number(0),
        b"ab\0xab\0y",
    ),
    (
        A,
        b"\x7f\0\x80\0",
        Call::Strcmp(0, 2),
        Answer::Number(NO_SIZE),
        b"\x7f\0\x80\0",
    ),
    (
        A,
        b"\x80\0\x7f\0",
        Call::Strcmp(0, 2),
        Answer::Number(1),
        b"\x80\0\x7f\0",
    ),
    (
        A,
        b"bza\0ayb\0",
        Call::Strcmp(0, 4),
        Answer::Number(1),
        b"bza\0ayb\0",
    ),
    (
        A,
        b"\0a\0",
        Call::Strcmp(0, 1),
        Answer::Number(NO_SIZE),
        b"\0a\0",
    ),
    (
        END - 8,
        b"abd\0.abc",
        Call::Strcmp(0, 5),
        Answer::Number(1),
        b"abd\0.abc",
    ),
    (
        END - 8,
        b"abc\0.abc",
        Call::Strcmp(0, 5),
        Answer::BadAddress,
        b"abc\0.abc",
    ),
    (
        END - 8,
        b"abc\0.abc",
        Call::Strcmp(5, 0),
        Answer::BadAddress,
        b"abc\0.abc",
    ),
    (
        END - 8,
        b"ab\0..abc",
        Call::Strcmp(0, 5),
        Answer::Number(NO_SIZE),
        b"ab\0..abc",
    ),
    (
        END - 8,
        b"abc\0.abc",
        Call::Strcmp(5, 5),
        Answer::BadAddress,
        b"abc\0.abc",
    ),
    (
        END - 8,
        b"abc\0.abc",
        Call::Strcmp(0, 8),
        Answer::BadAddress,
        b"abc\0.abc",
    ),
    (
        END - 8,
        b"abc\0abc\0",
        Call::Strcmp(0, 4),
        Answer::Number(0),
        b"abc\0abc\0",
    ),
    (
        END - 8,
        b"abc\0abc\0",
        Call::Strcmp(4, 0),
        Answer::Number(0),
        b"abc\0abc\0",
    ),
    (
        END - 8,
        b"abc\0.abc",
        Call::Strcmp(8, 0),
        Answer::BadAddress,
        b"abc\0.abc",
    ),
];

/// The first such byte up to and with the NUL, a character being the low byte of its number.
const SOUGHT: &[Row] = &[
    (
        A,
        b"abcb\0b",
        Call::Strchr(0, 98),
        Answer::At(1),
        b"abcb\0b",
    ),
    (
        A,
        b"abcb\0b",
        Call::Strchr(2, 98),
        Answer::At(3),
        b"abcb\0b",
    ),
    (
        A,
        b"abcb\0z",
        Call::Strchr(0, 122),
        Answer::Number(0),
        b"abcb\0z",
    ),
    (A, b"abcb\0b", Call::Strchr(0, 0), Answer::At(4), b"abcb\0b"),
    (
        A,
        b"abcb\0b",
        Call::Strchr(0, 256),
        Answer::At(4),
        b"abcb\0b",
    ),
    (
        A,
        b"abcb\0b",
        Call::Strchr(0, 354),
        Answer::At(1),
        b"abcb\0b",
    ),
    (
        A,
        b"a\xff\0",
        Call::Strchr(0, NO_SIZE),
        Answer::At(1),
        b"a\xff\0",
    ),
    (END - 3, b"abc", Call::Strchr(0, 99), Answer::At(2), b"abc"),
    (
        END - 3,
        b"abc",
        Call::Strchr(0, 122),
        Answer::BadAddress,
        b"abc",
    ),
    (
        END - 3,
        b"ab\0",
        Call::Strchr(0, 122),
        Answer::Number(0),
        b"ab\0",
    ),
    (
        END - 3,
        b"abc",
        Call::Strchr(3, 99),
        Answer::BadAddress,
        b"abc",
    ),
];

#[test]
fn texts_are_held_against_sizes(rt: HostRuntime) -> Result<(), Fail> {
    assert_table(&rt, rt.alloc(), SIZES)?;
    Ok(())
}

#[test]
fn texts_are_appended(rt: HostRuntime) -> Result<(), Fail> {
    assert_table(&rt, rt.alloc(), APPENDED)?;
    Ok(())
}

#[test]
fn overlaps_go_through_a_copy(rt: HostRuntime) -> Result<(), Fail> {
    assert_table(&rt, rt.alloc(), OVERLAPS)?;
    Ok(())
}

#[test]
fn addresses_end(rt: HostRuntime) -> Result<(), Fail> {
    assert_table(&rt, rt.alloc(), EDGES)?;
    Ok(())
}

#[test]
fn texts_are_ordered(rt: HostRuntime) -> Result<(), Fail> {
    assert_table(&rt, rt.alloc(), ORDERS)?;
    Ok(())
}

#[test]
fn characters_are_found(rt: HostRuntime) -> Result<(), Fail> {
    assert_table(&rt, rt.alloc(), SOUGHT)?;
    Ok(())
}
