//! What the operations on numbers give, at the edges of the widths.

use crate::programs::end_of;
use crate::values::assert_same;
use bm_isa::{BinaryOp, DivideOp, DivideWidth, Instr};
use fc_base::{End, NoMemory, Width};
use std::alloc::Global;
use std::test::Fail;

/// Whether an instruction on registers 1 and 2 leaves the number in register 0. None where the run ends otherwise.
fn gives(
    alloc: Global,
    instruction: Instr,
    a: u64,
    b: u64,
    number: u64,
) -> Result<Option<End>, NoMemory> {
    end_of(
        alloc,
        &[
            Instr::Const { to: 1, number: a },
            Instr::Const { to: 2, number: b },
            instruction,
            Instr::Const { to: 3, number },
            Instr::Binary {
                op: BinaryOp::Equal,
                to: 0,
                left: 0,
                right: 3,
            },
            Instr::Return { from: 0 },
        ],
    )
}

fn binary(op: BinaryOp) -> Instr {
    Instr::Binary {
        op,
        to: 0,
        left: 1,
        right: 2,
    }
}

fn divide(op: DivideOp, width: DivideWidth) -> Instr {
    Instr::Divide {
        op,
        width,
        to: 0,
        left: 1,
        right: 2,
    }
}

const ALL: u64 = 0xFFFF_FFFF_FFFF_FFFF;

const HIGH: u64 = 0x8000_0000_0000_0000;

const QUARTERS: u64 = 0xC000_0000_0000_0000;

/// The least number of four bytes, and the number behind the greatest.
const LEAST_4: u64 = 0xFFFF_FFFF_8000_0000;

const PAST_4: u64 = 0x8000_0000;

const BINARY: &[(BinaryOp, u64, u64, u64)] = &[
    (BinaryOp::Add, ALL, 2, 1),
    (BinaryOp::Add, HIGH, HIGH, 0),
    (BinaryOp::Add, HIGH - 1, 1, HIGH),
    (BinaryOp::Sub, 0, 1, ALL),
    (BinaryOp::Sub, HIGH, 1, HIGH - 1),
    (BinaryOp::Sub, 1, ALL, 2),
    (BinaryOp::Mul, 0x1_0000_0001, 0x1_0000_0001, 0x2_0000_0001),
    (BinaryOp::Mul, HIGH, 2, 0),
    (BinaryOp::Mul, ALL, ALL, 1),
    (BinaryOp::And, 0xF0, 0x3C, 0x30),
    (BinaryOp::And, ALL, HIGH, HIGH),
    (BinaryOp::Or, 0xF0, 0x3C, 0xFC),
    (BinaryOp::Or, HIGH, HIGH - 1, ALL),
    (BinaryOp::Xor, 0xF0, 0x3C, 0xCC),
    (BinaryOp::Xor, ALL, HIGH, HIGH - 1),
    (BinaryOp::ShiftLeft, HIGH + 1, 65, 2),
    (BinaryOp::ShiftLeft, 1, 63, HIGH),
    (BinaryOp::ShiftLeft, 3, 64, 3),
    (BinaryOp::ShiftLeft, 1, ALL, HIGH),
    (BinaryOp::ShiftRightUnsigned, HIGH, 63, 1),
    (BinaryOp::ShiftRightUnsigned, ALL, 64, ALL),
    (BinaryOp::ShiftRightUnsigned, ALL, 1, HIGH - 1),
    (BinaryOp::ShiftRightSigned, HIGH, 63, ALL),
    (BinaryOp::ShiftRightSigned, 0x7F, 4, 7),
    (BinaryOp::ShiftRightSigned, HIGH, 64, HIGH),
    (BinaryOp::ShiftRightSigned, HIGH, 1, QUARTERS),
    (BinaryOp::ShiftRightSigned, HIGH - 1, 62, 1),
    (BinaryOp::ShiftRightSigned, 0x8000_0000, 31, 1),
    (BinaryOp::MulHigh, ALL, ALL, ALL - 1),
    (BinaryOp::MulHigh, HIGH, 2, 1),
    (BinaryOp::MulHigh, ALL, 1, 0),
    (BinaryOp::DivUnsigned, ALL, 2, HIGH - 1),
    (BinaryOp::DivUnsigned, HIGH, ALL, 0),
    (BinaryOp::DivUnsigned, ALL, ALL, 1),
    (BinaryOp::RemUnsigned, ALL, 10, 5),
    (BinaryOp::RemUnsigned, HIGH, ALL, HIGH),
    (BinaryOp::RemUnsigned, ALL, HIGH, HIGH - 1),
    (BinaryOp::Equal, 3, 3, 1),
    (BinaryOp::Equal, 0x1_0000_0000, 0, 0),
    (BinaryOp::Equal, HIGH, 0, 0),
    (BinaryOp::NotEqual, 3, 3, 0),
    (BinaryOp::NotEqual, 0x1_0000_0000, 0, 1),
    (BinaryOp::LessUnsigned, ALL, 0, 0),
    (BinaryOp::LessUnsigned, HIGH - 1, HIGH, 1),
    (BinaryOp::LessUnsigned, HIGH, HIGH, 0),
    (BinaryOp::AtMostUnsigned, 0, ALL, 1),
    (BinaryOp::AtMostUnsigned, HIGH, HIGH, 1),
    (BinaryOp::AtMostUnsigned, HIGH, HIGH - 1, 0),
    (BinaryOp::LessSigned, ALL, 0, 1),
    (BinaryOp::LessSigned, HIGH, HIGH - 1, 1),
    (BinaryOp::LessSigned, HIGH - 1, HIGH, 0),
    (BinaryOp::LessSigned, HIGH, HIGH, 0),
    (BinaryOp::LessSigned, 0x8000_0000, 0, 0),
    (BinaryOp::AtMostSigned, HIGH, HIGH - 1, 1),
    (BinaryOp::AtMostSigned, HIGH - 1, HIGH, 0),
    (BinaryOp::AtMostSigned, ALL, ALL, 1),
    (BinaryOp::MinSigned, ALL, 1, ALL),
    (BinaryOp::MinSigned, HIGH - 1, HIGH, HIGH),
    (BinaryOp::MaxSigned, ALL, 1, 1),
    (BinaryOp::MaxSigned, HIGH - 1, HIGH, HIGH - 1),
    (BinaryOp::MinUnsigned, ALL, 1, 1),
    (BinaryOp::MinUnsigned, HIGH, HIGH - 1, HIGH - 1),
];

#[test]
fn operations_give(rt: HostRuntime) -> Result<(), Fail> {
    for row in 0..BINARY.len() {
        let (op, a, b, number) = BINARY[row];
        let end = gives(rt.alloc(), binary(op), a, b, number)?;
        assert_same(&rt, row, end, Some(End::Exit(1)));
    }
    Ok(())
}

const DIVIDE: &[(DivideOp, DivideWidth, u64, u64, u64)] = &[
    (DivideOp::Div, DivideWidth::W8, ALL - 6, 2, ALL - 2),
    (DivideOp::Rem, DivideWidth::W8, ALL - 6, 2, ALL),
    (DivideOp::Div, DivideWidth::W4, 7, ALL - 1, ALL - 2),
    (DivideOp::Rem, DivideWidth::W4, 7, ALL - 1, 1),
    (DivideOp::Div, DivideWidth::W8, LEAST_4, ALL, PAST_4),
    (DivideOp::Rem, DivideWidth::W8, LEAST_4, ALL, 0),
    (DivideOp::Div, DivideWidth::W4, PAST_4, ALL, LEAST_4),
    (DivideOp::Div, DivideWidth::W4, LEAST_4, 1, LEAST_4),
    (DivideOp::Div, DivideWidth::W4, HIGH, ALL, HIGH),
    (DivideOp::Rem, DivideWidth::W4, HIGH, ALL, 0),
    (DivideOp::Div, DivideWidth::W8, HIGH, 1, HIGH),
    (DivideOp::Div, DivideWidth::W8, HIGH, 2, QUARTERS),
    (DivideOp::Rem, DivideWidth::W8, HIGH, 3, ALL - 1),
    (DivideOp::Div, DivideWidth::W8, ALL, ALL, 1),
    (DivideOp::Rem, DivideWidth::W8, ALL - 6, ALL - 2, ALL),
    (DivideOp::Rem, DivideWidth::W8, HIGH - 1, ALL, 0),
    (DivideOp::Rem, DivideWidth::W4, 7, ALL - 2, 1),
];

#[test]
fn signed_divisions_give(rt: HostRuntime) -> Result<(), Fail> {
    for row in 0..DIVIDE.len() {
        let (op, width, a, b, number) = DIVIDE[row];
        let end = gives(rt.alloc(), divide(op, width), a, b, number)?;
        assert_same(&rt, row, end, Some(End::Exit(1)));
    }
    Ok(())
}

const NO_QUOTIENT: &[(BinaryOp, u64)] = &[
    (BinaryOp::DivUnsigned, 1),
    (BinaryOp::DivUnsigned, 0),
    (BinaryOp::RemUnsigned, ALL),
];

#[test]
fn unsigned_divisions_by_0_end_the_run(rt: HostRuntime) -> Result<(), Fail> {
    for row in 0..NO_QUOTIENT.len() {
        let (op, a) = NO_QUOTIENT[row];
        let end = gives(rt.alloc(), binary(op), a, 0, 0)?;
        assert_same(&rt, row, end, Some(End::Fpe));
    }
    Ok(())
}

const NO_SIGNED_QUOTIENT: &[(DivideOp, DivideWidth, u64, u64)] = &[
    (DivideOp::Div, DivideWidth::W4, LEAST_4, ALL),
    (DivideOp::Div, DivideWidth::W4, 7, 0),
    (DivideOp::Div, DivideWidth::W8, HIGH, ALL),
    (DivideOp::Div, DivideWidth::W8, 7, 0),
    (DivideOp::Rem, DivideWidth::W4, LEAST_4, ALL),
    (DivideOp::Rem, DivideWidth::W4, 0, 0),
    (DivideOp::Rem, DivideWidth::W8, HIGH, ALL),
    (DivideOp::Rem, DivideWidth::W8, 0, 0),
];

#[test]
fn signed_divisions_end_the_run(rt: HostRuntime) -> Result<(), Fail> {
    for row in 0..NO_SIGNED_QUOTIENT.len() {
        let (op, width, a, b) = NO_SIGNED_QUOTIENT[row];
        let end = gives(rt.alloc(), divide(op, width), a, b, 0)?;
        assert_same(&rt, row, end, Some(End::Fpe));
    }
    Ok(())
}

const EXTEND: &[(bool, Width, u64, u64)] = &[
    (true, Width::W1, 0x7F, 0x7F),
    (true, Width::W1, 0x80, 0xFFFFFFFFFFFFFF80),
    (true, Width::W1, 0xFF, 0xFFFFFFFFFFFFFFFF),
    (true, Width::W1, 0x100, 0x0),
    (false, Width::W1, 0xFF, 0xFF),
    (false, Width::W1, 0x100, 0x0),
    (true, Width::W2, 0x7FFF, 0x7FFF),
    (true, Width::W2, 0x8000, 0xFFFFFFFFFFFF8000),
    (true, Width::W2, 0xFFFF, 0xFFFFFFFFFFFFFFFF),
    (true, Width::W2, 0x10000, 0x0),
    (false, Width::W2, 0xFFFF, 0xFFFF),
    (false, Width::W2, 0x10000, 0x0),
    (true, Width::W4, 0x7FFFFFFF, 0x7FFFFFFF),
    (true, Width::W4, 0x80000000, 0xFFFFFFFF80000000),
    (true, Width::W4, 0xFFFFFFFF, 0xFFFFFFFFFFFFFFFF),
    (true, Width::W4, 0x100000000, 0x0),
    (false, Width::W4, 0xFFFFFFFF, 0xFFFFFFFF),
    (false, Width::W4, 0x100000000, 0x0),
    (true, Width::W8, HIGH, HIGH),
    (false, Width::W8, ALL, ALL),
];

#[test]
fn low_bytes_are_extended(rt: HostRuntime) -> Result<(), Fail> {
    for row in 0..EXTEND.len() {
        let (signed, width, a, number) = EXTEND[row];
        let instruction = Instr::Extend {
            signed,
            width,
            to: 0,
            from: 1,
        };
        let end = gives(rt.alloc(), instruction, a, 0, number)?;
        assert_same(&rt, row, end, Some(End::Exit(1)));
    }
    Ok(())
}

/// Whether a conditional move of register 1 over the number 5 leaves the number, under this test.
fn selected(alloc: Global, test: u64, number: u64) -> Result<Option<End>, NoMemory> {
    end_of(
        alloc,
        &[
            Instr::Const { to: 0, number: 5 },
            Instr::Const { to: 1, number: 9 },
            Instr::Const {
                to: 2,
                number: test,
            },
            Instr::Move { to: 4, from: 2 },
            Instr::Select {
                to: 0,
                test: 4,
                from: 1,
            },
            Instr::Const { to: 3, number },
            Instr::Binary {
                op: BinaryOp::Equal,
                to: 0,
                left: 0,
                right: 3,
            },
            Instr::Return { from: 0 },
        ],
    )
}

/// A test, what a conditional move leaves under it, and where the two jumps go: 1 where they jump.
const TESTS: &[(u64, u64, u8, u8)] = &[
    (0, 5, 1, 0),
    (1, 9, 0, 1),
    (0x1_0000_0000, 9, 0, 1),
    (HIGH, 9, 0, 1),
    (ALL, 9, 0, 1),
];

#[test]
fn a_move_goes_by_all_bits_of_its_test(rt: HostRuntime) -> Result<(), Fail> {
    for row in 0..TESTS.len() {
        let (test, number, _, _) = TESTS[row];
        let end = selected(rt.alloc(), test, number)?;
        assert_same(&rt, row, end, Some(End::Exit(1)));
    }
    Ok(())
}

/// Returns 1 where the jump is made, else 0.
fn jumped(alloc: Global, test: u64, jump: Instr) -> Result<Option<End>, NoMemory> {
    end_of(
        alloc,
        &[
            Instr::Const {
                to: 0,
                number: test,
            },
            jump,
            Instr::Const { to: 1, number: 0 },
            Instr::Return { from: 1 },
            Instr::Const { to: 1, number: 1 },
            Instr::Return { from: 1 },
        ],
    )
}

#[test]
fn jumps_go_by_all_bits_of_their_test(rt: HostRuntime) -> Result<(), Fail> {
    for row in 0..TESTS.len() {
        let (test, _, if_zero, if_not) = TESTS[row];
        let end = jumped(rt.alloc(), test, Instr::JumpIfZero { test: 0, target: 4 })?;
        assert_same(&rt, row, end, Some(End::Exit(if_zero)));
        let end = jumped(
            rt.alloc(),
            test,
            Instr::JumpIfNotZero { test: 0, target: 4 },
        )?;
        assert_same(&rt, row, end, Some(End::Exit(if_not)));
    }
    Ok(())
}
