//! What library calls do.

use crate::programs::end_of;
use crate::values::assert_same;
use bm_isa::Instr;
use fc_base::{End, NoMemory};
use std::alloc::Global;
use std::test::Fail;

/// How a program ends that makes a call with these numbers in the argument slots and returns its result.
fn called(alloc: Global, call: u32, count: u32, args: [u64; 4]) -> Result<Option<End>, NoMemory> {
    let [a, b, c, d] = args;
    end_of(
        alloc,
        &[
            Instr::Const { to: 0, number: a },
            Instr::Const { to: 1, number: b },
            Instr::Const { to: 2, number: c },
            Instr::Const { to: 3, number: d },
            Instr::Argument { from: 0, slot: 0 },
            Instr::Argument { from: 1, slot: 1 },
            Instr::Argument { from: 2, slot: 2 },
            Instr::Argument { from: 3, slot: 3 },
            Instr::Host { to: 0, call, count },
            Instr::Return { from: 0 },
        ],
    )
}

const CALLS: &[(u32, u32, [u64; 4], Option<End>)] = &[
    (0, 1, [300, 0, 0, 0], Some(End::Exit(44))),
    (1, 0, [0, 0, 0, 0], Some(End::Abort)),
    (73, 4, [5_242_888, 7, 4, 4], Some(End::Exit(8))),
    (73, 4, [5_242_888, 7, 5, 4], Some(End::Overflow)),
    (73, 4, [65_535, 7, 1, 1], Some(End::BadAddress)),
    (73, 4, [0, 7, 0, 0], Some(End::Exit(0))),
    (73, 3, [5_242_888, 7, 4, 4], None),
    (9, 3, [5_242_888, 7, 5, 4], Some(End::Exit(8))),
    (6, 3, [5_242_888, 5_242_880, 8, 0], Some(End::Exit(8))),
    (6, 3, [0, 5_242_880, 1, 0], Some(End::BadAddress)),
    (6, 4, [5_242_888, 5_242_880, 8, 8], None),
    (70, 4, [5_242_888, 5_242_880, 8, 8], Some(End::Exit(8))),
    (70, 4, [5_242_888, 5_242_880, 9, 8], Some(End::Overflow)),
    (8, 3, [5_242_888, 5_242_880, 4, 0], Some(End::Exit(12))),
    (7, 3, [5_242_889, 5_242_888, 9, 0], Some(End::Exit(9))),
    (71, 4, [5_242_888, 65_536, 5, 4], Some(End::Overflow)),
    (72, 4, [5_242_888, 5_242_880, 4, 4], Some(End::Exit(12))),
    (72, 4, [5_242_888, 5_242_880, 5, 4], Some(End::Overflow)),
    (10, 2, [5_242_880, 32, 0, 0], Some(End::Exit(0))),
    (74, 3, [5_242_888, 4, 4, 0], Some(End::Exit(0))),
    (74, 3, [5_242_888, 5, 4, 0], Some(End::Overflow)),
    (11, 2, [0, 0, 0, 0], Some(End::Exit(0))),
    (75, 3, [17_825_791, 2, 2, 0], Some(End::BadAddress)),
    (12, 3, [5_242_880, 5_242_888, 4, 0], Some(End::Exit(0))),
    (12, 3, [65_536, 65_537, 1, 0], Some(End::Exit(255))),
    (13, 2, [5_242_888, 65_536, 0, 0], Some(End::Exit(8))),
    (13, 2, [65_536, 65_538, 0, 0], Some(End::Exit(0))),
    (14, 2, [5_242_888, 65_536, 0, 0], Some(End::Exit(12))),
    (78, 3, [5_242_888, 65_536, 5, 0], Some(End::Exit(12))),
    (78, 3, [5_242_888, 65_536, 4, 0], Some(End::Overflow)),
    (15, 3, [5_242_888, 65_536, 3, 0], Some(End::Exit(8))),
    (79, 4, [5_242_888, 65_536, 5, 4], Some(End::Overflow)),
    (16, 2, [5_242_888, 65_536, 0, 0], Some(End::Exit(8))),
    (80, 3, [5_242_888, 65_536, 5, 0], Some(End::Exit(8))),
    (80, 3, [5_242_888, 65_536, 4, 0], Some(End::Overflow)),
    (17, 3, [5_242_888, 65_536, 2, 0], Some(End::Exit(8))),
    (81, 4, [5_242_888, 65_536, 2, 3], Some(End::Exit(8))),
    (81, 4, [5_242_888, 65_536, 2, 2], Some(End::Overflow)),
    (19, 2, [65_536, 65_537, 0, 0], Some(End::Exit(255))),
    (19, 2, [65_537, 65_536, 0, 0], Some(End::Exit(1))),
    (19, 2, [65_536, 0, 0, 0], Some(End::BadAddress)),
    (77, 3, [5_242_888, 5_242_880, 1, 0], Some(End::Exit(8))),
    (77, 3, [5_242_888, 5_242_880, 0, 0], Some(End::Overflow)),
    (18, 1, [5_242_880, 0, 0, 0], Some(End::Exit(0))),
    (18, 1, [0, 0, 0, 0], Some(End::BadAddress)),
    (82, 2, [5_242_880, 1, 0, 0], None),
    (20, 2, [5_242_888, 0, 0, 0], Some(End::Exit(8))),
    (20, 2, [5_242_888, 7, 0, 0], Some(End::Exit(0))),
    (2, 2, [16, 0, 0, 0], None),
    (21, 0, [0, 0, 0, 0], None),
    (85, 2, [65_536, 8, 0, 0], None),
    (24, 1, [1, 0, 0, 0], None),
    (25, 1, [5_242_888, 0, 0, 0], None),
    (89, 2, [5_242_888, 1, 0, 0], None),
    (26, 2, [5_242_888, 1, 0, 0], None),
    (90, 3, [5_242_888, 1, 1, 0], None),
    (30, 3, [1, 1, 0, 0], None),
    (94, 4, [1, 1, 0, 0], None),
    (31, 0, [0, 0, 0, 0], None),
    (95, 4, [0, 0, 0, 0], None),
];

#[test]
fn calls_end(rt: HostRuntime) -> Result<(), Fail> {
    for row in 0..CALLS.len() {
        let (call, count, args, end) = CALLS[row];
        assert_same(&rt, row, called(rt.alloc(), call, count, args)?, end);
    }
    Ok(())
}
