//! Which operands an image may name: the first and the last of each kind, and one past it.

use crate::programs::end_of;
use crate::values::assert_same;
use bm_isa::{BinaryOp, Instr};
use fc_base::{End, Width};
use std::test::Fail;

/// An instruction of a function with eight registers and a frame of 32 bytes, and whether its image is none.
const OPERANDS: &[(Instr, bool)] = &[
    (
        Instr::Const {
            to: 7,
            number: 0xFFFF_FFFF_FFFF_FFFF,
        },
        false,
    ),
    (Instr::Const { to: 8, number: 0 }, true),
    (Instr::Move { to: 7, from: 8 }, true),
    (Instr::Slot { to: 0, offset: 31 }, false),
    (Instr::Slot { to: 0, offset: 32 }, true),
    (
        Instr::Binary {
            op: BinaryOp::Add,
            to: 7,
            left: 7,
            right: 7,
        },
        false,
    ),
    (
        Instr::Binary {
            op: BinaryOp::Add,
            to: 0,
            left: 8,
            right: 0,
        },
        true,
    ),
    (
        Instr::Binary {
            op: BinaryOp::Add,
            to: 0,
            left: 0,
            right: 8,
        },
        true,
    ),
    (
        Instr::Select {
            to: 0,
            test: 8,
            from: 0,
        },
        true,
    ),
    (
        Instr::Store {
            width: Width::W1,
            from: 8,
            at: 0,
        },
        true,
    ),
    (Instr::Argument { from: 7, slot: 63 }, false),
    (Instr::Argument { from: 7, slot: 64 }, true),
    (Instr::Jump { target: 1 }, false),
    (Instr::Jump { target: 3 }, true),
    (Instr::JumpIfZero { test: 8, target: 1 }, true),
    (Instr::Call { to: 0, function: 1 }, true),
    (
        Instr::Host {
            to: 8,
            call: 1,
            count: 0,
        },
        true,
    ),
];

#[test]
fn an_image_names_what_is_there(rt: HostRuntime) -> Result<(), Fail> {
    for row in 0..OPERANDS.len() {
        let (instruction, is_refused) = OPERANDS[row];
        let code = [
            instruction,
            Instr::Const { to: 0, number: 4 },
            Instr::Return { from: 0 },
        ];
        let end = if is_refused { None } else { Some(End::Exit(4)) };
        assert_same(&rt, row, end_of(rt.alloc(), &code)?, end);
    }
    Ok(())
}
