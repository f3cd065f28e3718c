//! The library's prints, and the line of a size.

use crate::programs::calling;
use crate::streams::{OVERFLOW, Row, stops, told};
use crate::values::assert_same;
use bm_isa::Instr;
use fc_base::{End, MemSource, NoMemory};
use std::alloc::Global;
use std::test::Fail;

/// Where the data section begins.
const DATA: u64 = 1_048_576;

/// The data section, a print or a note of a size, how it ends, and what is written on standard output and error.
const PRINTS: &[(&[u8], u32, &[u64], End, &[u8], &[u8])] = &[
    (
        b"%d,%u,%hhd\0",
        21,
        &[DATA, 0xFFFF_FFFF, 0xFFFF_FFFF, 0x180],
        End::Exit(18),
        b"-1,4294967295,-128",
        b"",
    ),
    (
        b"%ld,%lX\0",
        21,
        &[DATA, 0x8000_0000_0000_0000, 0xFFFF_FFFF_FFFF_FFFF],
        End::Exit(37),
        b"-9223372036854775808,FFFFFFFFFFFFFFFF",
        b"",
    ),
    (
        b"[%-6s][%.2s]%%\0",
        21,
        &[DATA, 65_536, 65_536],
        End::Exit(13),
        b"[prog  ][pr]%",
        b"",
    ),
    (b"%c%c\0", 21, &[DATA, 0x141, 10], End::Exit(2), b"A\n", b""),
    (b"\0", 21, &[DATA], End::Exit(0), b"", b""),
    (b"x\0", 21, &[DATA; 64], End::Exit(1), b"x", b""),
    (b"%.0s\0", 21, &[DATA, 0], End::Exit(0), b"", b""),
    (b"a%s\0", 21, &[DATA, 65_535], End::BadAddress, b"", b""),
    (b"a%d%d\0", 21, &[DATA, 1], End::BadFormat, b"", b""),
    (b"a%q\0", 21, &[DATA, 1], End::BadFormat, b"", b""),
    (b"a%\0", 21, &[DATA, 1], End::BadFormat, b"", b""),
    (b"%4096d\0", 21, &[DATA, 1], End::BadFormat, b"", b""),
    (b"a", 21, &[0], End::BadAddress, b"", b""),
    (b"%x\n\0", 24, &[1, DATA, 0xAB], End::Exit(3), b"ab\n", b""),
    (b"%x\n\0", 24, &[2, DATA, 0xAB], End::Exit(3), b"", b"ab\n"),
    (
        b"%x\n\0",
        24,
        &[0x1_0000_0002, DATA, 0xAB],
        End::Exit(3),
        b"",
        b"ab\n",
    ),
    (b"%x\n\0", 24, &[0, DATA, 0xAB], End::Exit(255), b"", b""),
    (b"", 24, &[3, 0], End::Exit(255), b"", b""),
    (b"%d\0", 24, &[1, DATA], End::BadFormat, b"", b""),
    (
        b"",
        30,
        &[12, 7, 0, 40],
        End::Exit(0),
        b"",
        b"size 12:7 mode 0 = 40\n",
    ),
    (
        b"",
        30,
        &[0, 0, 6, 0],
        End::Exit(0),
        b"",
        b"size 0:0 mode 2 = 0\n",
    ),
    (
        b"",
        30,
        &[0xFFFF_FFFF, 0xFFFF_FFFF_FFFF_FFFF, 3, 0xFFFF_FFFF_FFFF_FFFF],
        End::Exit(0),
        b"",
        b"size 4294967295:18446744073709551615 mode 3 = 18446744073709551615\n",
    ),
];

#[test]
fn prints_write(rt: HostRuntime) -> Result<(), Fail> {
    for k in 0..PRINTS.len() {
        let (data, call, args, end, out, err) = PRINTS[k];
        let row = Row { data, out, err };
        let code = calling(rt.alloc(), call, args)?;
        let input = MemSource::new(rt.alloc(), b"")?;
        let found = stops(rt.alloc(), &code, &row, input, 128, 128)?;
        let found = found.map(|(stop, _)| told(stop));
        assert_same(&rt, k, found, Some((Some(end), 3)));
    }
    Ok(())
}

/// Where a print's text is stored.
const TO: u64 = 5_242_888;

/// A program that makes a library call with these arguments, then `puts(TO)`, and returns the first call's result.
fn storing(alloc: Global, call: u32, args: &[u64]) -> Result<Vec<Instr>, NoMemory> {
    let mut code = calling(alloc, call, args)?;
    code.pop();
    code.push(Instr::Const { to: 1, number: TO })?;
    code.push(Instr::Argument { from: 1, slot: 0 })?;
    code.push(Instr::Host {
        to: 1,
        call: 22,
        count: 1,
    })?;
    code.push(Instr::Return { from: 0 })?;
    Ok(code)
}

/// The data section, a print into memory, how it ends, and what `puts(TO)` then shows, with what is written on standard error.
const STORED: &[(&[u8], u32, &[u64], End, &[u8], &[u8])] = &[
    (b"%d!\0", 25, &[TO, DATA, 7], End::Exit(2), b"7!\n", b""),
    (
        b"%s\0",
        25,
        &[TO, DATA, 65_536],
        End::Exit(4),
        b"prog\n",
        b"",
    ),
    (b"x\0", 25, &[TO, DATA], End::Exit(1), b"x\n", b""),
    (b"%s!\0", 25, &[TO, DATA, TO], End::BadAddress, b"", b""),
    (b"x\0", 25, &[65_535, DATA], End::BadAddress, b"", b""),
    (b"x\0", 25, &[17_825_791, DATA], End::BadAddress, b"", b""),
    (b"%d%d\0", 25, &[TO, DATA, 1], End::BadFormat, b"", b""),
    (b"%d!\0", 89, &[TO, 3, DATA, 7], End::Exit(2), b"7!\n", b""),
    (
        b"%d!\0",
        89,
        &[TO, 2, DATA, 7],
        End::Overflow,
        b"",
        OVERFLOW,
    ),
    (b"%d!\0", 89, &[0, 2, DATA, 7], End::Overflow, b"", OVERFLOW),
    (b"%q\0", 89, &[TO, 0, DATA, 7], End::BadFormat, b"", b""),
    (b"%d%d\0", 89, &[TO, 9, DATA, 7], End::BadFormat, b"", b""),
    (
        b"\0",
        89,
        &[TO, 0xFFFF_FFFF_FFFF_FFFF, DATA],
        End::Exit(0),
        b"\n",
        b"",
    ),
    (
        b"%d\0",
        26,
        &[TO, 3, DATA, 12_345],
        End::Exit(5),
        b"12\n",
        b"",
    ),
    (
        b"%d\0",
        26,
        &[TO, 6, DATA, 12_345],
        End::Exit(5),
        b"12345\n",
        b"",
    ),
    (
        b"%d\0",
        26,
        &[TO, 1, DATA, 12_345],
        End::Exit(5),
        b"\n",
        b"",
    ),
    (b"%d\0", 26, &[0, 0, DATA, 12_345], End::Exit(5), b"\n", b""),
    (
        b"%d\0",
        26,
        &[0, 1, DATA, 12_345],
        End::BadAddress,
        b"",
        b"",
    ),
    (b"%d\0", 26, &[TO, 3, 0, 12_345], End::BadAddress, b"", b""),
    (
        b"%d\0",
        90,
        &[TO, 3, 3, DATA, 12_345],
        End::Exit(5),
        b"12\n",
        b"",
    ),
    (
        b"%d\0",
        90,
        &[TO, 4, 3, DATA, 1],
        End::Overflow,
        b"",
        OVERFLOW,
    ),
    (b"", 90, &[0, 1, 0, 0], End::Overflow, b"", OVERFLOW),
    (b"%d\0", 90, &[TO, 3, 3, DATA], End::BadFormat, b"", b""),
];

#[test]
fn prints_store(rt: HostRuntime) -> Result<(), Fail> {
    for k in 0..STORED.len() {
        let (data, call, args, end, out, err) = STORED[k];
        let row = Row { data, out, err };
        let code = storing(rt.alloc(), call, args)?;
        let input = MemSource::new(rt.alloc(), b"")?;
        let found = stops(rt.alloc(), &code, &row, input, 128, 128)?;
        let found = found.map(|(stop, _)| told(stop));
        assert_same(&rt, k, found, Some((Some(end), 3)));
    }
    Ok(())
}
