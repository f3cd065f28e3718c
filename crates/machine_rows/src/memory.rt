//! What the instructions do that touch memory, and where control goes.

use crate::programs::end_of;
use crate::values::assert_same;
use bm_isa::{BinaryOp, Instr};
use fc_base::{End, NoMemory, Width};
use std::alloc::Global;
use std::test::Fail;

/// How a load of the width from the address ends.
fn load(alloc: Global, width: Width, number: u64) -> Result<Option<End>, NoMemory> {
    end_of(
        alloc,
        &[
            Instr::Const { to: 0, number },
            Instr::Load {
                signed: false,
                width,
                to: 1,
                at: 0,
            },
            Instr::Return { from: 1 },
        ],
    )
}

const LOADS: &[(Width, u64, End)] = &[
    (Width::W1, 65_535, End::BadAddress),
    (Width::W1, 65_536, End::Exit(b'p')),
    (Width::W1, 17_825_791, End::Exit(0)),
    (Width::W1, 17_825_792, End::BadAddress),
    (Width::W2, 65_535, End::BadAddress),
    (Width::W2, 65_536, End::Exit(b'p')),
    (Width::W2, 17_825_790, End::Exit(0)),
    (Width::W2, 17_825_791, End::BadAddress),
    (Width::W4, 65_535, End::BadAddress),
    (Width::W4, 65_536, End::Exit(b'p')),
    (Width::W4, 17_825_788, End::Exit(0)),
    (Width::W4, 17_825_789, End::BadAddress),
    (Width::W8, 65_535, End::BadAddress),
    (Width::W8, 65_536, End::Exit(b'p')),
    (Width::W8, 17_825_784, End::Exit(0)),
    (Width::W8, 17_825_785, End::BadAddress),
    (Width::W1, 0, End::BadAddress),
    (Width::W8, 65_529, End::BadAddress),
    (Width::W2, 0xFFFF_FFFF_FFFF_FFFF, End::BadAddress),
    (Width::W8, 0xFFFF_FFFF_FFFF_FFF8, End::BadAddress),
    (Width::W4, 0x1_0001_0000, End::BadAddress),
];

#[test]
fn loads_end(rt: HostRuntime) -> Result<(), Fail> {
    for row in 0..LOADS.len() {
        let (width, address, end) = LOADS[row];
        assert_same(&rt, row, load(rt.alloc(), width, address)?, Some(end));
    }
    Ok(())
}

/// Whether a number that is stored with a width over eight bytes of ones leaves this number of eight bytes there. None where the
/// run ends otherwise.
fn stored(alloc: Global, width: Width, address: u64, number: u64) -> Result<Option<End>, NoMemory> {
    end_of(
        alloc,
        &[
            Instr::Slot { to: 1, offset: 0 },
            Instr::Const {
                to: 2,
                number: 0xFFFF_FFFF_FFFF_FFFF,
            },
            Instr::Store {
                width: Width::W8,
                from: 2,
                at: 1,
            },
            Instr::Const {
                to: 3,
                number: 0x8877_6655_4433_2211,
            },
            Instr::Const {
                to: 4,
                number: address,
            },
            Instr::Store {
                width,
                from: 3,
                at: 4,
            },
            Instr::Load {
                signed: false,
                width: Width::W8,
                to: 5,
                at: 1,
            },
            Instr::Const { to: 6, number },
            Instr::Binary {
                op: BinaryOp::Equal,
                to: 0,
                left: 5,
                right: 6,
            },
            Instr::Return { from: 0 },
        ],
    )
}

/// The first call's frame begins at 5,242,880.
const STORES: &[(Width, u64, u64, End)] = &[
    (Width::W1, 5_242_880, 0xFFFF_FFFF_FFFF_FF11, End::Exit(1)),
    (Width::W2, 5_242_880, 0xFFFF_FFFF_FFFF_2211, End::Exit(1)),
    (Width::W4, 5_242_880, 0xFFFF_FFFF_4433_2211, End::Exit(1)),
    (Width::W8, 5_242_880, 0x8877_6655_4433_2211, End::Exit(1)),
    (Width::W4, 5_242_882, 0xFFFF_4433_2211_FFFF, End::Exit(1)),
    (Width::W8, 5_242_888, 0xFFFF_FFFF_FFFF_FFFF, End::Exit(1)),
    (Width::W1, 65_535, 0, End::BadAddress),
    (Width::W1, 17_825_791, 0xFFFF_FFFF_FFFF_FFFF, End::Exit(1)),
    (Width::W1, 17_825_792, 0, End::BadAddress),
    (Width::W2, 65_535, 0, End::BadAddress),
    (Width::W2, 17_825_790, 0xFFFF_FFFF_FFFF_FFFF, End::Exit(1)),
    (Width::W2, 17_825_791, 0, End::BadAddress),
    (Width::W4, 65_535, 0, End::BadAddress),
    (Width::W4, 17_825_788, 0xFFFF_FFFF_FFFF_FFFF, End::Exit(1)),
    (Width::W4, 17_825_789, 0, End::BadAddress),
    (Width::W8, 65_535, 0, End::BadAddress),
    (Width::W8, 17_825_784, 0xFFFF_FFFF_FFFF_FFFF, End::Exit(1)),
    (Width::W8, 17_825_785, 0, End::BadAddress),
    (Width::W8, 0xFFFF_FFFF_FFFF_FFF8, 0, End::BadAddress),
];

#[test]
fn stores_end(rt: HostRuntime) -> Result<(), Fail> {
    for row in 0..STORES.len() {
        let (width, address, number, end) = STORES[row];
        assert_same(
            &rt,
            row,
            stored(rt.alloc(), width, address, number)?,
            Some(end),
        );
    }
    Ok(())
}

/// Whether a load from a place of these eight bytes gives the number.
fn loaded(
    alloc: Global,
    signed: bool,
    width: Width,
    offset: u32,
    number: u64,
) -> Result<Option<End>, NoMemory> {
    end_of(
        alloc,
        &[
            Instr::Slot { to: 1, offset: 0 },
            Instr::Const {
                to: 2,
                number: 0x8877_6655_4433_8280,
            },
            Instr::Store {
                width: Width::W8,
                from: 2,
                at: 1,
            },
            Instr::Slot { to: 3, offset },
            Instr::Load {
                signed,
                width,
                to: 4,
                at: 3,
            },
            Instr::Const { to: 5, number },
            Instr::Binary {
                op: BinaryOp::Equal,
                to: 0,
                left: 4,
                right: 5,
            },
            Instr::Return { from: 0 },
        ],
    )
}

const LOADED: &[(bool, Width, u32, u64)] = &[
    (false, Width::W1, 0, 0x80),
    (true, Width::W1, 0, 0xFFFF_FFFF_FFFF_FF80),
    (true, Width::W1, 2, 0x33),
    (false, Width::W2, 0, 0x8280),
    (true, Width::W2, 0, 0xFFFF_FFFF_FFFF_8280),
    (true, Width::W2, 2, 0x4433),
    (false, Width::W4, 4, 0x8877_6655),
    (true, Width::W4, 4, 0xFFFF_FFFF_8877_6655),
    (true, Width::W4, 0, 0x4433_8280),
    (false, Width::W8, 0, 0x8877_6655_4433_8280),
    (true, Width::W8, 0, 0x8877_6655_4433_8280),
];

#[test]
fn loads_extend(rt: HostRuntime) -> Result<(), Fail> {
    for row in 0..LOADED.len() {
        let (signed, width, offset, number) = LOADED[row];
        let end = loaded(rt.alloc(), signed, width, offset, number)?;
        assert_same(&rt, row, end, Some(End::Exit(1)));
    }
    Ok(())
}

/// How a copy and a store of zeros end, of so many bytes.
fn moved(alloc: Global, to: u64, from: u64, instruction: Instr) -> Result<Option<End>, NoMemory> {
    end_of(
        alloc,
        &[
            Instr::Const { to: 0, number: to },
            Instr::Const {
                to: 1,
                number: from,
            },
            instruction,
            Instr::Const { to: 0, number: 0 },
            Instr::Return { from: 0 },
        ],
    )
}

const MOVED: &[(u64, u64, u32, End)] = &[
    (65_536, 65_536, 17_760_256, End::Exit(0)),
    (65_536, 65_536, 17_760_257, End::BadAddress),
    (65_535, 65_536, 1, End::BadAddress),
    (65_536, 65_535, 1, End::BadAddress),
    (65_537, 65_536, 17_760_255, End::Exit(0)),
    (65_537, 65_536, 17_760_256, End::BadAddress),
    (65_536, 65_537, 17_760_256, End::BadAddress),
    (17_825_791, 65_536, 1, End::Exit(0)),
    (17_825_792, 65_536, 1, End::BadAddress),
    (0, 0xFFFF_FFFF_FFFF_FFFF, 0, End::Exit(0)),
    (65_536, 65_536, 0xFFFF_FFFF, End::BadAddress),
];

#[test]
fn copies_end(rt: HostRuntime) -> Result<(), Fail> {
    for row in 0..MOVED.len() {
        let (to, from, count, end) = MOVED[row];
        let copy = Instr::Copy {
            to_at: 0,
            from_at: 1,
            count,
        };
        assert_same(&rt, row, moved(rt.alloc(), to, from, copy)?, Some(end));
    }
    Ok(())
}

const ZEROED: &[(u64, u32, End)] = &[
    (65_536, 17_760_256, End::Exit(0)),
    (65_536, 17_760_257, End::BadAddress),
    (65_535, 1, End::BadAddress),
    (17_825_791, 1, End::Exit(0)),
    (17_825_791, 2, End::BadAddress),
    (17_825_792, 1, End::BadAddress),
    (0, 0, End::Exit(0)),
    (0xFFFF_FFFF_FFFF_FFFF, 1, End::BadAddress),
];

#[test]
fn zeros_end(rt: HostRuntime) -> Result<(), Fail> {
    for row in 0..ZEROED.len() {
        let (at, count, end) = ZEROED[row];
        let zero = Instr::Zero { at: 0, count };
        assert_same(&rt, row, moved(rt.alloc(), at, 0, zero)?, Some(end));
    }
    Ok(())
}

/// Stores four bytes in the frame, copies three of them one byte on, and loads the byte of a place.
fn copied(alloc: Global, offset: u32) -> Result<Option<End>, NoMemory> {
    end_of(
        alloc,
        &[
            Instr::Const {
                to: 0,
                number: 0x0403_0201,
            },
            Instr::Slot { to: 1, offset: 8 },
            Instr::Store {
                width: Width::W4,
                from: 0,
                at: 1,
            },
            Instr::Slot { to: 2, offset: 9 },
            Instr::Copy {
                to_at: 2,
                from_at: 1,
                count: 3,
            },
            Instr::Slot { to: 3, offset },
            Instr::Load {
                signed: false,
                width: Width::W1,
                to: 4,
                at: 3,
            },
            Instr::Return { from: 4 },
        ],
    )
}

const COPIED: &[(u32, u8)] = &[(8, 1), (9, 1), (10, 2), (11, 3), (12, 0)];

#[test]
fn a_copy_reads_before_it_stores(rt: HostRuntime) -> Result<(), Fail> {
    for row in 0..COPIED.len() {
        let (offset, byte) = COPIED[row];
        assert_same(&rt, row, copied(rt.alloc(), offset)?, Some(End::Exit(byte)));
    }
    Ok(())
}

/// Adds the numbers up to ten by a loop.
#[test]
fn a_loop_ends(rt: HostRuntime) -> Result<(), Fail> {
    let end = end_of(
        rt.alloc(),
        &[
            Instr::Const { to: 0, number: 0 },
            Instr::Const { to: 1, number: 10 },
            Instr::Const { to: 2, number: 1 },
            Instr::JumpIfZero { test: 1, target: 7 },
            Instr::Binary {
                op: BinaryOp::Add,
                to: 0,
                left: 0,
                right: 1,
            },
            Instr::Binary {
                op: BinaryOp::Sub,
                to: 1,
                left: 1,
                right: 2,
            },
            Instr::Jump { target: 3 },
            Instr::Return { from: 0 },
        ],
    )?;
    assert_same(&rt, 0, end, Some(End::Exit(55)));
    Ok(())
}

/// A jump out of the function is refused.
#[test]
fn no_jump_leaves_its_function(rt: HostRuntime) -> Result<(), Fail> {
    let end = end_of(rt.alloc(), &[Instr::Jump { target: 1 }])?;
    assert_same(&rt, 0, end, None);
    Ok(())
}
