//! The sixteen bytes of instructions.

use bm_isa::{BadInstr, decode, encode};
use std::process::Abort;
use std::test::Fail;

/// One of each shape, with numbers that tell the fields apart.
const INSTRUCTIONS: &[[u8; 16]] = &[
    [0, 0, 0, 0, 9, 0, 0, 0, 1, 2, 3, 4, 5, 6, 7, 8],
    [1, 0, 0, 0, 9, 0, 0, 0, 8, 1, 0, 0, 0, 0, 0, 0],
    [3, 0, 0, 0, 1, 0, 0, 0, 2, 0, 0, 0, 3, 0, 0, 0],
    [15, 4, 0, 0, 1, 0, 0, 0, 2, 0, 0, 0, 3, 0, 0, 0],
    [16, 8, 0, 0, 1, 0, 0, 0, 2, 0, 0, 0, 3, 0, 0, 0],
    [17, 1, 0, 0, 1, 0, 0, 0, 2, 0, 0, 0, 0, 0, 0, 0],
    [18, 2, 0, 0, 1, 0, 0, 0, 2, 0, 0, 0, 0, 0, 0, 0],
    [27, 0, 0, 0, 1, 0, 0, 0, 2, 0, 0, 0, 3, 0, 0, 0],
    [28, 0, 0, 0, 1, 0, 0, 0, 2, 0, 0, 0, 3, 0, 0, 0],
    [29, 4, 0, 0, 1, 0, 0, 0, 2, 0, 0, 0, 0, 0, 0, 0],
    [30, 8, 0, 0, 1, 0, 0, 0, 2, 0, 0, 0, 0, 0, 0, 0],
    [31, 1, 0, 0, 1, 0, 0, 0, 2, 0, 0, 0, 0, 0, 0, 0],
    [32, 0, 0, 0, 1, 0, 0, 0, 2, 0, 0, 0, 3, 0, 0, 0],
    [33, 0, 0, 0, 1, 0, 0, 0, 0, 0, 0, 0, 3, 0, 0, 0],
    [34, 0, 0, 0, 0, 0, 0, 0, 2, 0, 0, 0, 0, 0, 0, 0],
    [38, 0, 0, 0, 1, 0, 0, 0, 2, 0, 0, 0, 0, 0, 0, 0],
    [39, 0, 0, 0, 1, 0, 0, 0, 0, 0, 0, 0, 0, 0, 0, 0],
    [40, 0, 0, 0, 1, 0, 0, 0, 73, 0, 0, 0, 4, 0, 0, 0],
];

/// A number over 40, also where the rest is wrong too.
const OPCODES: &[[u8; 16]] = &[
    [41, 0, 0, 0, 0, 0, 0, 0, 0, 0, 0, 0, 0, 0, 0, 0],
    [255, 9, 1, 0, 0, 0, 0, 0, 0, 0, 0, 0, 0, 0, 0, 0],
];

/// A width that the instruction can't have, also where a spare field is wrong too.
const WIDTHS: &[[u8; 16]] = &[
    [3, 1, 0, 0, 1, 0, 0, 0, 2, 0, 0, 0, 3, 0, 0, 0],
    [15, 2, 0, 0, 1, 0, 0, 0, 2, 0, 0, 0, 3, 0, 0, 0],
    [17, 0, 1, 0, 1, 0, 0, 0, 2, 0, 0, 0, 0, 0, 0, 0],
    [31, 3, 0, 0, 1, 0, 0, 0, 2, 0, 0, 0, 0, 0, 0, 0],
];

/// A field that isn't named and isn't 0.
const SPARES: &[[u8; 16]] = &[
    [3, 0, 1, 0, 1, 0, 0, 0, 2, 0, 0, 0, 3, 0, 0, 0],
    [3, 0, 0, 1, 1, 0, 0, 0, 2, 0, 0, 0, 3, 0, 0, 0],
    [1, 0, 0, 0, 1, 0, 0, 0, 2, 0, 0, 0, 0, 0, 0, 1],
    [33, 0, 0, 0, 1, 0, 0, 0, 1, 0, 0, 0, 3, 0, 0, 0],
    [34, 0, 0, 0, 1, 0, 0, 0, 2, 0, 0, 0, 0, 0, 0, 0],
    [39, 0, 0, 0, 1, 0, 0, 0, 1, 0, 0, 0, 0, 0, 0, 0],
];

/// Whether the bytes are an instruction that has these very bytes.
fn comes_back(bytes: &[u8; 16]) -> bool {
    match decode(bytes) {
        Ok(instruction) => encode(&instruction) == *bytes,
        Err(_) => false,
    }
}

/// What is wrong with the bytes, by its place in the order; 0 where nothing is.
fn refusal(bytes: &[u8; 16]) -> u8 {
    match decode(bytes) {
        Ok(_) => 0,
        Err(BadInstr::Opcode) => 1,
        Err(BadInstr::WidthByte) => 2,
        Err(BadInstr::Spare) => 3,
    }
}

fn assert_refused(rt: &impl Abort, rows: &[[u8; 16]], why: u8) {
    for row in rows {
        let found = refusal(row);
        assert!(rt; found == why);
    }
}

/// What is decoded is encoded by the same bytes.
#[test]
fn instructions_come_back(rt: HostRuntime) -> Result<(), Fail> {
    for row in INSTRUCTIONS {
        let same = comes_back(row);
        assert!(&rt; same);
    }
    Ok(())
}

/// Number, width and spare fields are looked at in this order.
#[test]
fn other_bytes_are_refused(rt: HostRuntime) -> Result<(), Fail> {
    assert_refused(&rt, OPCODES, 1);
    assert_refused(&rt, WIDTHS, 2);
    assert_refused(&rt, SPARES, 3);
    Ok(())
}
