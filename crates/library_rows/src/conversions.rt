//! Each conversion with each flag, and with field widths and precisions (C11 7.21.6.1).

ghost use Rattle.std.specs.Prelude.{◌≡◌, length};
ghost use Rattle.library_meaning.specs.Memory.{memory_size};

use crate::memory::{A, clear, store, zeros};
use crate::prints::{STRING, TO, is_malformed, is_stored, is_written};
use fc_base::{MemSink, NoMemory};
use std::alloc::{AllocError, Global};
use std::process::Abort;
use std::test::Fail;

/// A conversion's letter, its argument, and the sign and the other characters of what it prints.
type Letter = (u8, u64, &'static [u8], &'static [u8]);

const LETTERS: &[Letter] = &[
    (b'd', 18446744073709551609, b"-", b"7"),
    (b'i', 42, b"", b"42"),
    (b'u', 42, b"", b"42"),
    (b'x', 171, b"", b"ab"),
    (b'X', 171, b"", b"AB"),
    (b'o', 8, b"", b"10"),
    (b'c', 65, b"", b"A"),
    (b's', STRING, b"", b"abc"),
    (b'%', 0, b"", b"%"),
];

/// Flags, and whether `-` and `0` are among them.
type Flags = (&'static [u8], bool, bool);

const FLAGS: &[Flags] = &[
    (b"", false, false),
    (b"-", true, false),
    (b"0", false, true),
    (b"-0", true, true),
    (b"0-", true, true),
];

/// A field width or a precision, and its number.
type Number = (&'static [u8], usize);

const WIDTHS: &[Number] = &[(b"", 0), (b"1", 1), (b"4095", 4095)];

const PRECISIONS: &[Number] = &[(b"", 4095), (b".", 0), (b".0", 0), (b".4095", 4095)];

/// Whether the letter may stand behind these: `0` is for integers, a precision for `s`, and `%%` has nothing between.
fn is_format(letter: u8, flags: Flags, width: Number, precision: Number) -> bool {
    match letter {
        b'%' => flags.0.is_empty() && width.0.is_empty() && precision.0.is_empty(),
        b's' => !flags.2,
        b'c' => !flags.2 && precision.0.is_empty(),
        _ => precision.0.is_empty(),
    }
}

/// Appends a byte that many times.
fn repeat(text: &mut Vec<u8>, byte: u8, count: usize) -> Result<(), AllocError> {
    for _ in 0..count {
        text.push(byte)?;
    }
    Ok(())
}

/// What is printed: padded with spaces, behind it where there is `-`, or with zeros behind the sign.
fn printed(
    alloc: Global,
    sign: &[u8],
    body: &[u8],
    flags: Flags,
    width: usize,
) -> Result<Vec<u8>, AllocError> {
    let missing = width.saturating_sub(sign.len()).saturating_sub(body.len());
    let (before, zeros, behind) = match (flags.1, flags.2) {
        (true, _) => (0, 0, missing),
        (false, true) => (0, missing, 0),
        (false, false) => (missing, 0, 0),
    };
    let mut text = Vec::new(alloc);
    repeat(&mut text, b' ', before)?;
    text.extend_from_slice(sign)?;
    repeat(&mut text, b'0', zeros)?;
    text.extend_from_slice(body)?;
    repeat(&mut text, b' ', behind)?;
    Ok(text)
}

/// Stores the parts of a format one behind the other, and a NUL.
fn store_parts(mem: &mut [u8], parts: &[&[u8]]) {
    let mut at = A;
    for part in parts {
        store(mem, at, part);
        at = at.wrapping_add(part.len() as u64);
    }
    store(mem, at, b"\0");
}

fn holds(
    alloc: Global,
    mem: &mut [u8],
    letter: Letter,
    flags: Flags,
    width: Number,
    precision: Number,
) -> Result<bool, NoMemory>
    requires { length mem.old ≡ memory_size }
{
    let (name, value, sign, body) = letter;
    store_parts(mem, &[b"%", flags.0, width.0, precision.0, &[name]]);
    clear(mem, TO, 1);
    if !is_format(name, flags, width, precision) {
        let mut sink = MemSink::sized(alloc, 9)?;
        return Ok(is_malformed(mem, &mut sink));
    }
    let cut = &body[..body.len().min(precision.1)];
    let text = printed(alloc, sign, cut, flags, width.1)?;
    Ok(is_written(mem, alloc, value, &text)? && is_stored(mem, value, &text))
}

fn assert_letter(
    rt: &impl Abort,
    alloc: Global,
    mem: &mut [u8],
    letter: Letter,
    flags: Flags,
) -> Result<(), NoMemory>
    requires { length mem.old ≡ memory_size }
{
    for &width in WIDTHS {
        for &precision in PRECISIONS {
            let same = holds(alloc, mem, letter, flags, width, precision)?;
            assert!(rt;
                same,
                "letter {} width {} precision {}",
                letter.0, width.1, precision.1
            );
        }
    }
    Ok(())
}

fn assert_letters(rt: &impl Abort, alloc: Global, mem: &mut [u8]) -> Result<(), NoMemory>
    requires { length mem.old ≡ memory_size }
{
    for &letter in LETTERS {
        for &flags in FLAGS {
            assert_letter(rt, alloc, mem, letter, flags)?;
        }
    }
    Ok(())
}

#[test]
fn each_conversion_is_printed(rt: HostRuntime) -> Result<(), Fail> {
    let mut mem = zeros(rt.alloc(), 17_825_792)?;
    store(&mut mem, STRING, b"abc\0");
    assert_letters(&rt, rt.alloc(), &mut mem)?;
    Ok(())
}
