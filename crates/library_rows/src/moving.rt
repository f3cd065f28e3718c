//! Calls that move bytes by their count (C11 7.24.2.1, 7.24.2.2, 7.24.4.1, 7.24.6.1; glibc's `mempcpy` and `bzero`).

use crate::calls::{Answer, Call, Row, assert_table};
use crate::memory::{A, END, NO_SIZE};
use std::test::Fail;

/// A size one too small, exact and one more: the request exceeds where the count is over the size.
const SIZES: &[Row] = &[
    (
        A,
        b"abcdWXYZ",
        Call::Memcpy(4, 0, 4, 3),
        Answer::Overflow,
        b"abcdWXYZ",
    ),
    (
        A,
        b"abcdWXYZ",
        Call::Memcpy(4, 0, 4, 4),
        Answer::At(4),
        b"abcdabcd",
    ),
    (
        A,
        b"abcdWXYZ",
        Call::Memcpy(4, 0, 4, 5),
        Answer::At(4),
        b"abcdabcd",
    ),
    (
        A,
        b"abcdWXYZ",
        Call::Memmove(4, 0, 4, 3),
        Answer::Overflow,
        b"abcdWXYZ",
    ),
    (
        A,
        b"abcdWXYZ",
        Call::Memmove(4, 0, 4, 4),
        Answer::At(4),
        b"abcdabcd",
    ),
    (
        A,
        b"abcdWXYZ",
        Call::Memmove(4, 0, 4, 5),
        Answer::At(4),
        b"abcdabcd",
    ),
    (
        A,
        b"abcdWXYZ",
        Call::Mempcpy(4, 0, 4, 3),
        Answer::Overflow,
        b"abcdWXYZ",
    ),
    (
        A,
        b"abcdWXYZ",
        Call::Mempcpy(4, 0, 4, 4),
        Answer::At(8),
        b"abcdabcd",
    ),
    (
        A,
        b"abcdWXYZ",
        Call::Mempcpy(4, 0, 4, 5),
        Answer::At(8),
        b"abcdabcd",
    ),
    (
        A,
        b"abcdWXYZ",
        Call::Memset(2, 65, 3, 2),
        Answer::Overflow,
        b"abcdWXYZ",
    ),
    (
        A,
        b"abcdWXYZ",
        Call::Memset(2, 65, 3, 3),
        Answer::At(2),
        b"abAAAXYZ",
    ),
    (
        A,
        b"abcdWXYZ",
        Call::Memset(2, 65, 3, 4),
        Answer::At(2),
        b"abAAAXYZ",
    ),
    (
        A,
        b"abcdWXYZ",
        Call::Memset(2, 321, 3, NO_SIZE),
        Answer::At(2),
        b"abAAAXYZ",
    ),
    (
        A,
        b"abcdWXYZ",
        Call::Bzero(2, 3, 2),
        Answer::Overflow,
        b"abcdWXYZ",
    ),
    (
        A,
        b"abcdWXYZ",
        Call::Bzero(2, 3, 3),
        Answer::Number(0),
        b"ab\0\0\0XYZ",
    ),
    (
        A,
        b"abcdWXYZ",
        Call::Bzero(2, 3, 4),
        Answer::Number(0),
        b"ab\0\0\0XYZ",
    ),
];

/// Bytes that overlap, by all but one and by one, in each direction: as if through a copy.
const OVERLAPS: &[Row] = &[
    (
        A,
        b"abcdWXYZ",
        Call::Memmove(1, 0, 4, 4),
        Answer::At(1),
        b"aabcdXYZ",
    ),
    (
        A,
        b"abcdWXYZ",
        Call::Memmove(0, 1, 4, 4),
        Answer::At(0),
        b"bcdWWXYZ",
    ),
    (
        A,
        b"abcdWXYZ",
        Call::Memmove(3, 0, 4, 4),
        Answer::At(3),
        b"abcabcdZ",
    ),
    (
        A,
        b"abcdWXYZ",
        Call::Memmove(0, 3, 4, 4),
        Answer::At(0),
        b"dWXYWXYZ",
    ),
    (
        A,
        b"abcdWXYZ",
        Call::Memcpy(1, 0, 4, 4),
        Answer::At(1),
        b"aabcdXYZ",
    ),
    (
        A,
        b"abcdWXYZ",
        Call::Memcpy(0, 1, 4, 4),
        Answer::At(0),
        b"bcdWWXYZ",
    ),
    (
        A,
        b"abcdWXYZ",
        Call::Memcpy(3, 0, 4, 4),
        Answer::At(3),
        b"abcabcdZ",
    ),
    (
        A,
        b"abcdWXYZ",
        Call::Memcpy(0, 3, 4, 4),
        Answer::At(0),
        b"dWXYWXYZ",
    ),
    (
        A,
        b"abcdWXYZ",
        Call::Mempcpy(1, 0, 4, 4),
        Answer::At(5),
        b"aabcdXYZ",
    ),
    (
        A,
        b"abcdWXYZ",
        Call::Mempcpy(0, 1, 4, 4),
        Answer::At(4),
        b"bcdWWXYZ",
    ),
    (
        A,
        b"abcdWXYZ",
        Call::Mempcpy(3, 0, 4, 4),
        Answer::At(7),
        b"abcabcdZ",
    ),
    (
        A,
        b"abcdWXYZ",
        Call::Mempcpy(0, 3, 4, 4),
        Answer::At(4),
        b"dWXYWXYZ",
    ),
];

/// No byte at address 0, the last valid byte, and those beside the valid ones. The check comes before an address is looked at.
const EDGES: &[Row] = &[
    (0, b"", Call::Memcpy(0, 0, 0, 0), Answer::Number(0), b""),
    (0, b"", Call::Memmove(0, 0, 0, 0), Answer::Number(0), b""),
    (0, b"", Call::Mempcpy(0, 0, 0, 0), Answer::Number(0), b""),
    (0, b"", Call::Memset(0, 65, 0, 0), Answer::Number(0), b"\0"),
    (0, b"", Call::Bzero(0, 0, 0), Answer::Number(0), b""),
    (0, b"", Call::Memcmp(0, 0, 0), Answer::Number(0), b""),
    (
        0,
        b"",
        Call::Memcpy(65535, A, 1, NO_SIZE),
        Answer::BadAddress,
        b"",
    ),
    (0, b"", Call::Memcpy(65535, A, 1, 0), Answer::Overflow, b""),
    (
        0,
        b"",
        Call::Memcpy(A, 65535, 1, 1),
        Answer::BadAddress,
        b"",
    ),
    (
        0,
        b"",
        Call::Memset(65536, 0, 1, 1),
        Answer::Number(65536),
        b"",
    ),
    (
        END - 4,
        b"abcd",
        Call::Memcpy(3, 0, 1, 1),
        Answer::At(3),
        b"abca",
    ),
    (
        END - 4,
        b"abcd",
        Call::Memcpy(4, 0, 1, 1),
        Answer::BadAddress,
        b"abcd",
    ),
    (
        END - 4,
        b"abcd",
        Call::Memcpy(0, 3, 1, 1),
        Answer::At(0),
        b"dbcd",
    ),
    (
        END - 4,
        b"abcd",
        Call::Memcpy(0, 3, 2, 2),
        Answer::BadAddress,
        b"abcd",
    ),
    (
        END - 4,
        b"abcd",
        Call::Memmove(0, 1, 3, 3),
        Answer::At(0),
        b"bcdd",
    ),
    (
        END - 4,
        b"abcd",
        Call::Memmove(0, 2, 3, 3),
        Answer::BadAddress,
        b"abcd",
    ),
    (
        END - 4,
        b"abcd",
        Call::Mempcpy(3, 0, 1, 1),
        Answer::At(4),
        b"abca",
    ),
    (
        END - 4,
        b"abcd",
        Call::Mempcpy(3, 0, 2, 2),
        Answer::BadAddress,
        b"abcd",
    ),
    (
        END - 4,
        b"abcd",
        Call::Memset(3, 65, 1, 1),
        Answer::At(3),
        b"abcA",
    ),
    (
        END - 4,
        b"abcd",
        Call::Memset(3, 65, 2, 2),
        Answer::BadAddress,
        b"abcd",
    ),
    (
        END - 4,
        b"abcd",
        Call::Bzero(0, 4, 4),
        Answer::Number(0),
        b"\0\0\0\0",
    ),
    (
        END - 4,
        b"abcd",
        Call::Bzero(0, 5, 5),
        Answer::BadAddress,
        b"abcd",
    ),
    (
        END - 4,
        b"abab",
        Call::Memcmp(0, 2, 2),
        Answer::Number(0),
        b"abab",
    ),
    (
        END - 4,
        b"abcd",
        Call::Memcmp(0, 2, 3),
        Answer::BadAddress,
        b"abcd",
    ),
    (
        A,
        b"abcd",
        Call::Memset(0, 0, NO_SIZE, NO_SIZE),
        Answer::BadAddress,
        b"abcd",
    ),
    (
        END - 4,
        b"abcd",
        Call::Memmove(1, 0, 3, 3),
        Answer::At(1),
        b"aabc",
    ),
    (
        END - 4,
        b"abcd",
        Call::Memmove(2, 0, 3, 3),
        Answer::BadAddress,
        b"abcd",
    ),
    (
        END - 4,
        b"abcd",
        Call::Mempcpy(0, 3, 1, 1),
        Answer::At(1),
        b"dbcd",
    ),
    (
        END - 4,
        b"abcd",
        Call::Mempcpy(0, 3, 2, 2),
        Answer::BadAddress,
        b"abcd",
    ),
    (
        END - 4,
        b"abab",
        Call::Memcmp(2, 0, 2),
        Answer::Number(0),
        b"abab",
    ),
    (
        END - 4,
        b"abcd",
        Call::Memcmp(2, 0, 3),
        Answer::BadAddress,
        b"abcd",
    ),
];

/// The order of bytes as unsigned characters, by the first that differ.
const ORDERS: &[Row] = &[
    (
        A,
        b"abcdabce",
        Call::Memcmp(0, 4, 3),
        Answer::Number(0),
        b"abcdabce",
    ),
    (
        A,
        b"abcdabce",
        Call::Memcmp(0, 4, 4),
        Answer::Number(NO_SIZE),
        b"abcdabce",
    ),
    (
        A,
        b"abcdabce",
        Call::Memcmp(4, 0, 4),
        Answer::Number(1),
        b"abcdabce",
    ),
    (
        A,
        b"a\0ba\0c",
        Call::Memcmp(0, 3, 3),
        Answer::Number(NO_SIZE),
        b"a\0ba\0c",
    ),
    (
        A,
        b"\x7f\x80",
        Call::Memcmp(0, 1, 1),
        Answer::Number(NO_SIZE),
        b"\x7f\x80",
    ),
    (
        A,
        b"\x80\x7f",
        Call::Memcmp(0, 1, 1),
        Answer::Number(1),
        b"\x80\x7f",
    ),
    (
        A,
        b"bzay",
        Call::Memcmp(0, 2, 2),
        Answer::Number(1),
        b"bzay",
    ),
];

#[test]
fn counts_are_held_against_sizes(rt: HostRuntime) -> Result<(), Fail> {
    assert_table(&rt, rt.alloc(), SIZES)?;
    Ok(())
}

#[test]
fn overlaps_go_through_a_copy(rt: HostRuntime) -> Result<(), Fail> {
    assert_table(&rt, rt.alloc(), OVERLAPS)?;
    Ok(())
}

#[test]
fn addresses_end(rt: HostRuntime) -> Result<(), Fail> {
    assert_table(&rt, rt.alloc(), EDGES)?;
    Ok(())
}

#[test]
fn bytes_are_ordered(rt: HostRuntime) -> Result<(), Fail> {
    assert_table(&rt, rt.alloc(), ORDERS)?;
    Ok(())
}
