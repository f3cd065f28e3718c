//! Images that `exec` reads and runs, over a store, a source and sinks in memory.

use crate::commands::assert_outcome;
use bm_image::{ImageFault, ImageKind};
use fc_base::{End, MemStore, NoMemory};
use fort_driver::Outcome;
use std::alloc::Global;
use std::process::Abort;
use std::test::Fail;

/// Headers of one function and so many instructions.
const TWO: &[u8] = b"FC3IMAGE\x01\0\0\0\x01\0\0\0\x02\0\0\0\0\0\0\0\0\0\0\0\0\0\0\0";

const THREE: &[u8] = b"FC3IMAGE\x01\0\0\0\x01\0\0\0\x03\0\0\0\0\0\0\0\0\0\0\0\0\0\0\0";

const FIVE: &[u8] = b"FC3IMAGE\x01\0\0\0\x01\0\0\0\x05\0\0\0\0\0\0\0\0\0\0\0\0\0\0\0";

/// A header of one function whose entry is function 1.
const ENTRY_1: &[u8] = b"FC3IMAGE\x01\0\0\0\x01\0\0\0\x02\0\0\0\0\0\0\0\x01\0\0\0\0\0\0\0";

/// Functions without parameters and with two, and one whose frame alone passes the stack.
const PLAIN: &[u8] = b"\0\0\0\0\0\0\0\0\x02\0\0\0\x02\0\0\0\0\0\0\0";

const GIVEN: &[u8] = b"\0\0\0\0\x02\0\0\0\x03\0\0\0\x03\0\0\0\0\0\0\0";

const LARGE: &[u8] = b"\0\0\0\0\0\0\0\0\x02\0\0\0\x02\0\0\0\x10\0\x40\0";

/// `const r0 3`, with its spare byte 0 and 1; `const r0 65536`, `const r0 65535`, `const r2 8`.
const THREE_TO_0: &[u8] = b"\0\0\0\0\0\0\0\0\x03\0\0\0\0\0\0\0";

const SPARE: &[u8] = b"\0\0\x01\0\0\0\0\0\x03\0\0\0\0\0\0\0";

const FIRST_TO_0: &[u8] = b"\0\0\0\0\0\0\0\0\0\0\x01\0\0\0\0\0";

const BELOW_TO_0: &[u8] = b"\0\0\0\0\0\0\0\0\xff\xff\0\0\0\0\0\0";

const EIGHT_TO_2: &[u8] = b"\0\0\0\0\x02\0\0\0\x08\0\0\0\0\0\0\0";

/// `add r1 r1 r2`; `ldu r1 r0` and `ldu r1 r1` of one byte, `ldu r1 r1` of eight.
const ADD: &[u8] = b"\x03\0\0\0\x01\0\0\0\x01\0\0\0\x02\0\0\0";

const LOAD_0: &[u8] = b"\x1d\x01\0\0\x01\0\0\0\0\0\0\0\0\0\0\0";

const LOAD_1: &[u8] = b"\x1d\x01\0\0\x01\0\0\0\x01\0\0\0\0\0\0\0";

const LOAD_PLACE: &[u8] = b"\x1d\x08\0\0\x01\0\0\0\x01\0\0\0\0\0\0\0";

/// `jmp 0`, `jmp 1`, `jmp 2`, `ret r0`, `ret r1`.
const JUMP_0: &[u8] = b"\x22\0\0\0\0\0\0\0\0\0\0\0\0\0\0\0";

const JUMP_ON: &[u8] = b"\x22\0\0\0\0\0\0\0\x01\0\0\0\0\0\0\0";

const JUMP_2: &[u8] = b"\x22\0\0\0\0\0\0\0\x02\0\0\0\0\0\0\0";

const RETURN_0: &[u8] = b"\x27\0\0\0\0\0\0\0\0\0\0\0\0\0\0\0";

const RETURN_1: &[u8] = b"\x27\0\0\0\x01\0\0\0\0\0\0\0\0\0\0\0";

/// An image by its parts, the words of a command, and what they come to.
type Row = (&'static [&'static [u8]], &'static [&'static str], Outcome);

const ROWS: &[Row] = &[
    (
        &[TWO, PLAIN, THREE_TO_0, RETURN_0],
        &["exec", "a.img"],
        Outcome::Ran(End::Exit(3)),
    ),
    // within two instructions, and not within one
    (
        &[TWO, PLAIN, THREE_TO_0, RETURN_0],
        &["exec", "--steps", "2", "a.img"],
        Outcome::Ran(End::Exit(3)),
    ),
    (
        &[TWO, PLAIN, THREE_TO_0, RETURN_0],
        &["exec", "--steps", "1", "a.img"],
        Outcome::OutOfSteps,
    ),
    (
        &[TWO, PLAIN, JUMP_0, RETURN_0],
        &["exec", "--steps", "5", "a.img"],
        Outcome::OutOfSteps,
    ),
    // memory begins with the program's name
    (
        &[THREE, PLAIN, FIRST_TO_0, LOAD_0, RETURN_1],
        &["exec", "a.img"],
        Outcome::Ran(End::Exit(112)),
    ),
    (
        &[THREE, PLAIN, BELOW_TO_0, LOAD_0, RETURN_1],
        &["exec", "a.img"],
        Outcome::Ran(End::BadAddress),
    ),
    // argc, and the first byte of argv[1]
    (
        &[TWO, GIVEN, JUMP_ON, RETURN_0],
        &["exec", "a.img"],
        Outcome::Ran(End::Exit(1)),
    ),
    (
        &[TWO, GIVEN, JUMP_ON, RETURN_0],
        &["exec", "a.img", "--"],
        Outcome::Ran(End::Exit(1)),
    ),
    (
        &[TWO, GIVEN, JUMP_ON, RETURN_0],
        &["exec", "a.img", "--", "", "--", "-a"],
        Outcome::Ran(End::Exit(4)),
    ),
    (
        &[FIVE, GIVEN, EIGHT_TO_2, ADD, LOAD_PLACE, LOAD_1, RETURN_1],
        &["exec", "a.img", "--", "ada", "bob"],
        Outcome::Ran(End::Exit(97)),
    ),
    // a machine that has ended before its first instruction
    (
        &[TWO, LARGE, JUMP_0, RETURN_0],
        &["exec", "--steps", "1", "a.img"],
        Outcome::Ran(End::StackFull),
    ),
    // no images
    (
        &[],
        &["exec", "a.img"],
        Outcome::ImageRefused(ImageFault {
            kind: ImageKind::Short,
            offset: 0,
        }),
    ),
    (
        &[TWO, PLAIN, THREE_TO_0],
        &["exec", "a.img"],
        Outcome::ImageRefused(ImageFault {
            kind: ImageKind::Short,
            offset: 68,
        }),
    ),
    (
        &[TWO, PLAIN, THREE_TO_0, RETURN_0, b"\0"],
        &["exec", "a.img"],
        Outcome::ImageRefused(ImageFault {
            kind: ImageKind::Extra,
            offset: 84,
        }),
    ),
    (
        &[b"FC3IMAGF", PLAIN],
        &["exec", "a.img"],
        Outcome::ImageRefused(ImageFault {
            kind: ImageKind::Magic,
            offset: 0,
        }),
    ),
    (
        &[ENTRY_1, PLAIN, THREE_TO_0, RETURN_0],
        &["exec", "a.img"],
        Outcome::ImageRefused(ImageFault {
            kind: ImageKind::Count,
            offset: 24,
        }),
    ),
    (
        &[TWO, RETURN_1, RETURN_1],
        &["exec", "a.img"],
        Outcome::ImageRefused(ImageFault {
            kind: ImageKind::Function,
            offset: 32,
        }),
    ),
    (
        &[TWO, PLAIN, JUMP_2, RETURN_0],
        &["exec", "a.img"],
        Outcome::ImageRefused(ImageFault {
            kind: ImageKind::Instruction,
            offset: 52,
        }),
    ),
    (
        &[TWO, PLAIN, SPARE, RETURN_0],
        &["exec", "a.img"],
        Outcome::ImageRefused(ImageFault {
            kind: ImageKind::Instruction,
            offset: 52,
        }),
    ),
    (
        &[TWO, PLAIN, RETURN_0, THREE_TO_0],
        &["exec", "a.img"],
        Outcome::ImageRefused(ImageFault {
            kind: ImageKind::Instruction,
            offset: 68,
        }),
    ),
];

/// Puts the bytes of the parts under a.img.
fn put_image(alloc: Global, store: &mut MemStore, parts: &[&[u8]]) -> Result<(), NoMemory> {
    let mut bytes = Vec::new(alloc);
    for part in parts {
        bytes.extend_from_slice(part)?;
    }
    store.put("a.img", &bytes)
}

fn assert_row(
    rt: &impl Abort,
    alloc: Global,
    &(parts, words, outcome): &Row,
) -> Result<(), NoMemory> {
    let mut store = MemStore::new(alloc);
    put_image(alloc, &mut store, parts)?;
    assert_outcome(rt, alloc, words, &mut store, outcome)
}

#[test]
fn images_run_or_are_refused(rt: HostRuntime) -> Result<(), Fail> {
    for row in ROWS {
        assert_row(&rt, rt.alloc(), row)?;
    }
    Ok(())
}
