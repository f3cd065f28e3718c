//! What library calls take and write on the streams.

use crate::programs::{ALONE, calling, image_bytes};
use crate::values::assert_same;
use bm_image::{ReadFault, read_image};
use bm_isa::Instr;
use byte_machine::{Machine, Stop};
use fc_base::{End, MemSink, MemSource, NoMemory, Source, Words};
use std::alloc::Global;
use std::test::Fail;

/// How many bytes of standard input are left, of at most 16.
fn left_on(input: &mut MemSource) -> usize {
    let mut held = [0; 16];
    match input.read(&mut held) {
        Ok(count) => count,
        Err(_) => 0,
    }
}

/// How the run ended, or which stream failed, by its descriptor.
pub fn told(stop: Stop) -> (Option<End>, u32) {
    match stop {
        Stop::Ended(end) => (Some(end), 3),
        Stop::OutOfSteps => (None, 4),
        Stop::InputFault => (None, 0),
        Stop::OutFault => (None, 1),
        Stop::ErrFault => (None, 2),
    }
}

/// The data section of a program, and what it writes on standard output and error.
#[derive(Clone, Copy)]
pub struct Row {
    pub data: &'static [u8],
    pub out: &'static [u8],
    pub err: &'static [u8],
}

/// How a program stops, and how many bytes it leaves of standard input. None where it writes anything else.
pub fn stops(
    alloc: Global,
    code: &[Instr],
    row: &Row,
    mut input: MemSource,
    out_room: usize,
    err_room: usize,
) -> Result<Option<(Stop, usize)>, NoMemory> {
    let bytes = image_bytes(alloc, &[ALONE], code, row.data)?;
    match read_image(alloc, &bytes) {
        Ok(image) => {
            let mut machine = Machine::open(alloc, &image, &Words::new(alloc))?;
            let mut out = MemSink::sized(alloc, out_room)?;
            let mut err = MemSink::sized(alloc, err_room)?;
            let stop = machine.run(&mut input, &mut out, &mut err, 200);
            if out.bytes() == row.out && err.bytes() == row.err {
                Ok(Some((stop, left_on(&mut input))))
            } else {
                Ok(None)
            }
        }
        Err(ReadFault::NoMemory) => Err(NoMemory),
        Err(ReadFault::Refused(_)) => Ok(None),
    }
}

pub const OVERFLOW: &[u8] = b"*** buffer overflow detected ***: terminated\n";

/// A call, how it ends, what is written on standard output and error, and how many bytes of `abc` are left.
const ROWS: &[(u32, &[u64], End, &[u8], &[u8], usize)] = &[
    (22, &[65_536], End::Exit(5), b"prog\n", b"", 3),
    (22, &[65_540], End::Exit(1), b"\n", b"", 3),
    (22, &[65_535], End::BadAddress, b"", b"", 3),
    (22, &[17_825_792], End::BadAddress, b"", b"", 3),
    (23, &[0x141], End::Exit(0x41), b"A", b"", 3),
    (28, &[1, 65_536, 4], End::Exit(4), b"prog", b"", 3),
    (28, &[2, 65_536, 4], End::Exit(4), b"", b"prog", 3),
    (28, &[0x1_0000_0001, 65_536, 1], End::Exit(1), b"p", b"", 3),
    (28, &[0, 65_536, 4], End::Exit(255), b"", b"", 3),
    (28, &[3, 0, 4], End::Exit(255), b"", b"", 3),
    (28, &[1, 65_535, 1], End::BadAddress, b"", b"", 3),
    (28, &[1, 17_825_791, 2], End::BadAddress, b"", b"", 3),
    (28, &[1, 0, 0], End::Exit(0), b"", b"", 3),
    (29, &[], End::Exit(b'a'), b"", b"", 2),
    (27, &[0, 5_242_880, 2], End::Exit(2), b"", b"", 1),
    (27, &[0, 5_242_880, 9], End::Exit(3), b"", b"", 0),
    (
        27,
        &[0x1_0000_0000, 5_242_880, 1],
        End::Exit(1),
        b"",
        b"",
        2,
    ),
    (27, &[0, 0, 0], End::Exit(0), b"", b"", 3),
    (27, &[0, 65_535, 1], End::BadAddress, b"", b"", 3),
    (27, &[0, 17_825_790, 3], End::BadAddress, b"", b"", 3),
    (27, &[1, 0, 2], End::Exit(255), b"", b"", 3),
    (91, &[0, 5_242_880, 2, 2], End::Exit(2), b"", b"", 1),
    (91, &[0, 5_242_880, 3, 2], End::Overflow, b"", OVERFLOW, 3),
    (91, &[1, 5_242_880, 3, 2], End::Overflow, b"", OVERFLOW, 3),
    (91, &[1, 5_242_880, 2, 2], End::Exit(255), b"", b"", 3),
];

#[test]
fn calls_move(rt: HostRuntime) -> Result<(), Fail> {
    for k in 0..ROWS.len() {
        let (call, args, end, out, err, left) = ROWS[k];
        let row = Row {
            data: b"",
            out,
            err,
        };
        let code = calling(rt.alloc(), call, args)?;
        let input = MemSource::new(rt.alloc(), b"abc")?;
        let found = stops(rt.alloc(), &code, &row, input, 64, 64)?;
        let found = found.map(|(stop, left)| (told(stop), left));
        assert_same(&rt, k, found, Some(((Some(end), 3), left)));
    }
    Ok(())
}

/// A call, the room of standard output and of standard error, the descriptor that fails, and what is written before. Standard input
/// fails behind `abc`.
const FAULTS: &[(u32, &[u64], usize, usize, u32, &[u8], &[u8])] = &[
    (22, &[65_536], 3, 0, 1, b"pro", b""),
    (22, &[65_536], 4, 0, 1, b"prog", b""),
    (23, &[65], 0, 0, 1, b"", b""),
    (28, &[1, 65_536, 4], 2, 0, 1, b"pr", b""),
    (28, &[2, 65_536, 4], 0, 2, 2, b"", b"pr"),
    (27, &[0, 5_242_880, 4], 0, 0, 0, b"", b""),
    (91, &[0, 5_242_880, 5, 4], 0, 3, 2, b"", b"***"),
    (21, &[65_536], 2, 0, 1, b"pr", b""),
    (24, &[1, 65_536], 0, 9, 1, b"", b""),
    (24, &[2, 65_536], 9, 3, 2, b"", b"pro"),
    (30, &[12, 7, 0, 40], 9, 0, 2, b"", b""),
    (30, &[12, 7, 0, 40], 9, 8, 2, b"", b"size 12:"),
    (30, &[12, 7, 0, 40], 9, 21, 2, b"", b"size 12:7 mode 0 = 40"),
];

#[test]
fn streams_fail(rt: HostRuntime) -> Result<(), Fail> {
    for k in 0..FAULTS.len() {
        let (call, args, out_room, err_room, which, out, err) = FAULTS[k];
        let row = Row {
            data: b"",
            out,
            err,
        };
        let code = calling(rt.alloc(), call, args)?;
        let input = MemSource::failing(rt.alloc(), b"abc", 3)?;
        let found = stops(rt.alloc(), &code, &row, input, out_room, err_room)?;
        let found = found.map(|(stop, _)| told(stop));
        assert_same(&rt, k, found, Some((None, which)));
    }
    Ok(())
}
