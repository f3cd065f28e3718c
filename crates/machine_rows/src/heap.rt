//! What the calls on the heap do (C11 7.22.3). A block of n bytes takes n + 1, rounded up to a multiple of 16.

use crate::programs::end_of;
use crate::values::assert_same;
use bm_isa::{BinaryOp, Instr};
use fc_base::{End, NoMemory};
use std::alloc::Global;
use std::test::Fail;

/// An argument: a number, or what an earlier call gave, by its place.
#[derive(Clone, Copy)]
enum Arg {
    Is(u64),
    Gave(u32),
}

use Arg::{Gave, Is};

/// Appends an instruction that passes an argument. What the k-th call gives stands in register k, and register 7 is free.
fn pass(code: &mut Vec<Instr>, arg: Arg, slot: u32) -> Result<(), NoMemory> {
    match arg {
        Arg::Is(number) => {
            code.push(Instr::Const { to: 7, number })?;
            code.push(Instr::Argument { from: 7, slot })?;
        }
        Arg::Gave(from) => code.push(Instr::Argument { from, slot })?,
    }
    Ok(())
}

/// How a program ends that makes at most six calls of two arguments and returns what the last one gave, divided by the number.
fn ends(alloc: Global, calls: &[(u32, u32, Arg, Arg)], by: u64) -> Result<Option<End>, NoMemory> {
    let mut code = Vec::new(alloc);
    let (mut to, mut last) = (0, 0);
    for &(call, count, a, b) in calls {
        pass(&mut code, a, 0)?;
        pass(&mut code, b, 1)?;
        code.push(Instr::Host { to, call, count })?;
        last = to;
        to = to % 6 + 1;
    }
    code.push(Instr::Const { to: 7, number: by })?;
    code.push(Instr::Binary {
        op: BinaryOp::DivUnsigned,
        to: 7,
        left: last,
        right: 7,
    })?;
    code.push(Instr::Return { from: 7 })?;
    end_of(alloc, &code)
}

const NONE: Arg = Is(0);

/// The calls by number (2 malloc, 3 calloc, 4 realloc, 5 free, 9 memset, 18 strlen) with the count of their slots, the divisor, and the
/// end. The heap begins at 9,437,184, which is 144 times 65,536.
const ROWS: &[(&[(u32, u32, Arg, Arg)], u64, End)] = &[
    (&[(2, 1, Is(16), NONE)], 65_536, End::Exit(144)),
    (
        &[(2, 1, Is(0), NONE), (2, 1, Is(16), NONE)],
        1,
        End::Exit(16),
    ),
    (
        &[(2, 1, Is(15), NONE), (2, 1, Is(16), NONE)],
        1,
        End::Exit(16),
    ),
    (
        &[(2, 1, Is(16), NONE), (2, 1, Is(16), NONE)],
        1,
        End::Exit(32),
    ),
    (&[(2, 1, Is(8_388_607), NONE)], 65_536, End::Exit(144)),
    (&[(2, 1, Is(8_388_608), NONE)], 65_536, End::Exit(0)),
    (
        &[(2, 1, Is(0xFFFF_FFFF_FFFF_FFFF), NONE)],
        65_536,
        End::Exit(0),
    ),
    (
        &[(2, 1, Is(8_388_607), NONE), (2, 1, Is(0), NONE)],
        65_536,
        End::Exit(0),
    ),
    (
        &[
            (2, 1, Is(16), NONE),
            (2, 1, Is(16), NONE),
            (5, 1, Gave(0), NONE),
            (2, 1, Is(32), NONE),
        ],
        1,
        End::Exit(64),
    ),
    (
        &[
            (2, 1, Is(16), NONE),
            (2, 1, Is(16), NONE),
            (5, 1, Gave(0), NONE),
            (2, 1, Is(16), NONE),
        ],
        65_536,
        End::Exit(144),
    ),
    (
        &[
            (2, 1, Is(16), NONE),
            (2, 1, Is(16), NONE),
            (2, 1, Is(16), NONE),
            (5, 1, Gave(0), NONE),
            (5, 1, Gave(1), NONE),
            (2, 1, Is(40), NONE),
        ],
        1,
        End::Exit(0),
    ),
    (
        &[(3, 2, Is(4), Is(8)), (3, 2, Is(1), Is(1))],
        1,
        End::Exit(48),
    ),
    (
        &[(3, 2, Is(0x1_0000_0000), Is(0x1_0000_0000))],
        65_536,
        End::Exit(0),
    ),
    (
        &[(3, 2, Is(0xFFFF_FFFF_FFFF_FFFF), Is(0xFFFF_FFFF_FFFF_FFFF))],
        65_536,
        End::Exit(0),
    ),
    (
        &[(3, 2, Is(0), Is(0xFFFF_FFFF_FFFF_FFFF))],
        65_536,
        End::Exit(144),
    ),
    (
        &[(3, 2, Is(2), Is(4)), (18, 1, Gave(0), NONE)],
        1,
        End::Exit(0),
    ),
    (&[(5, 1, NONE, NONE)], 1, End::Exit(0)),
    (&[(5, 1, Is(9_437_184), NONE)], 1, End::BadAddress),
    (&[(5, 1, Is(5), NONE)], 1, End::BadAddress),
    (
        &[(2, 1, Is(16), NONE), (5, 1, Is(9_437_200), NONE)],
        1,
        End::BadAddress,
    ),
    (
        &[
            (2, 1, Is(16), NONE),
            (5, 1, Gave(0), NONE),
            (5, 1, Gave(0), NONE),
        ],
        1,
        End::BadAddress,
    ),
    (&[(4, 2, NONE, Is(16))], 65_536, End::Exit(144)),
    (
        &[(2, 1, Is(16), NONE), (4, 2, Gave(0), Is(16))],
        1,
        End::Exit(32),
    ),
    (
        &[
            (2, 1, Is(16), NONE),
            (4, 2, Gave(0), Is(16)),
            (2, 1, Is(1), NONE),
        ],
        65_536,
        End::Exit(144),
    ),
    (
        &[(2, 1, Is(16), NONE), (4, 2, Gave(0), Is(8_388_607))],
        65_536,
        End::Exit(0),
    ),
    (
        &[
            (2, 1, Is(16), NONE),
            (4, 2, Gave(0), Is(8_388_607)),
            (5, 1, Gave(0), NONE),
        ],
        1,
        End::Exit(0),
    ),
    (&[(4, 2, Is(5), Is(16))], 1, End::BadAddress),
    (
        &[
            (2, 1, Is(16), NONE),
            (5, 1, Gave(0), NONE),
            (4, 2, Gave(0), Is(16)),
        ],
        1,
        End::BadAddress,
    ),
];

#[test]
fn heap_calls_end(rt: HostRuntime) -> Result<(), Fail> {
    for row in 0..ROWS.len() {
        let (calls, by, end) = ROWS[row];
        assert_same(&rt, row, ends(rt.alloc(), calls, by)?, Some(end));
    }
    Ok(())
}
