//! Calls: what they find in their registers and their frame, and the limits of the stack.

use crate::programs::end_within;
use crate::values::assert_same;
use bm_image::FnRec;
use bm_isa::{BinaryOp, Instr};
use fc_base::{End, NoMemory};
use std::alloc::Global;
use std::test::Fail;

/// What a call counts against the limits.
#[derive(Clone, Copy)]
struct Cost {
    weight: u32,
    frame: u32,
}

/// How a program ends whose first call makes `calls` more, each live inside the one before. It returns 7.
fn nested(alloc: Global, first: Cost, each: Cost, calls: u64) -> Result<Option<End>, NoMemory> {
    let functions = [
        FnRec {
            first: 0,
            params: 0,
            regs: 2,
            weight: first.weight,
            frame: first.frame,
        },
        FnRec {
            first: 4,
            params: 1,
            regs: 2,
            weight: each.weight,
            frame: each.frame,
        },
    ];
    let code = [
        Instr::Const {
            to: 0,
            number: calls,
        },
        Instr::Argument { from: 0, slot: 0 },
        Instr::Call { to: 1, function: 1 },
        Instr::Return { from: 1 },
        Instr::Const { to: 1, number: 1 },
        Instr::Binary {
            op: BinaryOp::Sub,
            to: 0,
            left: 0,
            right: 1,
        },
        Instr::JumpIfZero {
            test: 0,
            target: 10,
        },
        Instr::Argument { from: 0, slot: 0 },
        Instr::Call { to: 1, function: 1 },
        Instr::Return { from: 1 },
        Instr::Const { to: 1, number: 7 },
        Instr::Return { from: 1 },
    ];
    end_within(alloc, &functions, &code, 1_000_000)
}

/// A weight and a frame of the first call, those of each further one, how many there are, and the end.
const NESTED: &[(u32, u32, u32, u32, u64, End)] = &[
    (2, 4_194_288, 2, 16, 1, End::Exit(7)),
    (2, 4_194_288, 2, 16, 2, End::StackFull),
    (2, 4_194_288, 2, 32, 1, End::StackFull),
    (2, 4_194_304, 2, 0, 3, End::Exit(7)),
    (2, 4_194_304, 2, 16, 1, End::StackFull),
    (2, 4_194_320, 2, 0, 1, End::StackFull),
    (2, 0, 2, 4_194_304, 1, End::Exit(7)),
    (2, 0, 2, 4_194_320, 1, End::StackFull),
    (2, 0, 2, 1_398_096, 3, End::Exit(7)),
    (2, 16, 2, 1_398_096, 3, End::Exit(7)),
    (2, 32, 2, 1_398_096, 3, End::StackFull),
    (4_194_304, 0, 4_194_304, 0, 3, End::Exit(7)),
    (4_194_304, 0, 4_194_304, 0, 4, End::StackFull),
    (4_194_303, 0, 4_194_304, 0, 3, End::Exit(7)),
    (4_194_303, 0, 4_194_304, 0, 4, End::StackFull),
    (272, 0, 272, 0, 61_679, End::Exit(7)),
    (272, 0, 272, 0, 61_680, End::StackFull),
];

#[test]
fn live_calls_count(rt: HostRuntime) -> Result<(), Fail> {
    for row in 0..NESTED.len() {
        let (first_weight, first_frame, weight, frame, calls, end) = NESTED[row];
        let first = Cost {
            weight: first_weight,
            frame: first_frame,
        };
        let each = Cost { weight, frame };
        assert_same(&rt, row, nested(rt.alloc(), first, each, calls)?, Some(end));
    }
    Ok(())
}

/// How a program ends whose first call, with a frame of 32 bytes, passes a number and makes a call of this code, which stands from
/// instruction 6 on and has one parameter. The result is compared with a number.
fn answer(
    alloc: Global,
    passed: u64,
    callee: &[Instr],
    number: u64,
) -> Result<Option<End>, NoMemory> {
    let functions = [
        FnRec {
            first: 0,
            params: 0,
            regs: 4,
            weight: 4,
            frame: 32,
        },
        FnRec {
            first: 6,
            params: 1,
            regs: 3,
            weight: 3,
            frame: 16,
        },
    ];
    let mut code = vec![in alloc;
        Instr::Const {
            to: 0,
            number: passed
        },
        Instr::Argument { from: 0, slot: 0 },
        Instr::Call { to: 1, function: 1 },
        Instr::Const { to: 2, number },
        Instr::Binary {
            op: BinaryOp::Equal,
            to: 3,
            left: 1,
            right: 2
        },
        Instr::Return { from: 3 },
    ]?;
    code.extend_from_slice(callee)?;
    end_within(alloc, &functions, &code, 1_000)
}

/// A call's frame stands behind its caller's, whose own begins at 5,242,880.
#[test]
fn frames_stand_one_behind_the_other(rt: HostRuntime) -> Result<(), Fail> {
    let callee = [Instr::Slot { to: 2, offset: 15 }, Instr::Return { from: 2 }];
    let end = answer(rt.alloc(), 0, &callee, 5_242_927)?;
    assert_same(&rt, 0, end, Some(End::Exit(1)));
    Ok(())
}

/// A second call's registers are zeros again, but for the parameter.
#[test]
fn registers_begin_as_zeros(rt: HostRuntime) -> Result<(), Fail> {
    let callee = [
        Instr::JumpIfZero {
            test: 0,
            target: 13,
        },
        Instr::Const { to: 1, number: 0 },
        Instr::Argument { from: 1, slot: 0 },
        Instr::Const { to: 2, number: 9 },
        Instr::Call { to: 1, function: 1 },
        Instr::Call { to: 1, function: 1 },
        Instr::Return { from: 1 },
        Instr::Const { to: 1, number: 8 },
        Instr::Select {
            to: 2,
            test: 2,
            from: 1,
        },
        Instr::Const { to: 0, number: 7 },
        Instr::Move { to: 1, from: 2 },
        Instr::Move { to: 2, from: 0 },
        Instr::Return { from: 1 },
    ];
    let end = answer(rt.alloc(), 1, &callee, 0)?;
    assert_same(&rt, 0, end, Some(End::Exit(1)));
    Ok(())
}

/// The caller's registers are as they were.
#[test]
fn callers_keep_their_registers(rt: HostRuntime) -> Result<(), Fail> {
    let callee = [
        Instr::JumpIfZero {
            test: 0,
            target: 12,
        },
        Instr::Const { to: 1, number: 0 },
        Instr::Const { to: 2, number: 9 },
        Instr::Argument { from: 1, slot: 0 },
        Instr::Call { to: 1, function: 1 },
        Instr::Return { from: 2 },
        Instr::Const { to: 2, number: 5 },
        Instr::Const { to: 1, number: 5 },
        Instr::Return { from: 1 },
    ];
    let end = answer(rt.alloc(), 1, &callee, 9)?;
    assert_same(&rt, 0, end, Some(End::Exit(1)));
    Ok(())
}
