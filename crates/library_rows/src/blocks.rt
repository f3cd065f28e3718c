//! Long texts that differ, or end, at the edges of the blocks in which they are compared.

ghost use Rattle.std.specs.Prelude.{◌≡◌, length};
ghost use Rattle.library_meaning.specs.Memory.{memory_size};

use crate::memory::{A, NO_SIZE, store, zeros};
use library_meaning::HostStop;
use mem_chk::{memcmp_c, memset_c};
use std::process::Abort;
use std::test::Fail;
use str_chk::{strcmp_c, strlen_c};

/// Where the second text lies, and how many bytes both have.
const B: u64 = A + 1000;

const LENGTH: u64 = 603;

/// Where the texts differ: at the edges of 8, 32 and 256 bytes, and in the last bytes, which fill no group of 8.
const PLACES: &[u64] = &[
    0, 1, 7, 8, 15, 16, 31, 32, 33, 63, 64, 255, 256, 257, 511, 512, 575, 576, 599, 600, 601, 602,
];

/// Two texts of the letter a, of which the first has this byte at a place.
fn write(mem: &mut [u8], place: u64, byte: u8)
    requires { length mem.old ≡ memory_size }
{
    let _first = memset_c(mem, A, 97, LENGTH, NO_SIZE);
    let _second = memset_c(mem, B, 97, LENGTH, NO_SIZE);
    store(mem, A.saturating_add(place), &[byte]);
}

fn gives(found: Result<u64, HostStop>, wanted: u64) -> bool {
    match found {
        Ok(n) => n == wanted,
        Err(_) => false,
    }
}

/// Whether both comparisons have this order at a place with this byte, and the other the other way round.
fn ordered(mem: &mut [u8], place: u64, byte: u8, order: u64, other: u64) -> bool
    requires { length mem.old ≡ memory_size }
{
    write(mem, place, byte);
    let texts = gives(strcmp_c(mem, A, B), order) && gives(strcmp_c(mem, B, A), other);
    let bytes = gives(memcmp_c(mem, A, B, LENGTH), order)
        && gives(memcmp_c(mem, B, A, LENGTH), other);
    texts && bytes && gives(memcmp_c(mem, A, B, place), 0)
}

/// A greater byte, a lesser one and a NUL, which is the least; and then the first text ends there.
fn assert_place(rt: &impl Abort, mem: &mut [u8], place: u64)
    requires { length mem.old ≡ memory_size }
{
    let greater = ordered(mem, place, 98, 1, NO_SIZE);
    let lesser = ordered(mem, place, 96, NO_SIZE, 1);
    let same = ordered(mem, place, 97, 0, 0);
    let ended = ordered(mem, place, 0, NO_SIZE, 1) && gives(strlen_c(mem, A), place);
    assert!(rt; greater && lesser && same && ended, "at {place}");
}

fn assert_places(rt: &impl Abort, mem: &mut [u8])
    requires { length mem.old ≡ memory_size }
{
    for &place in PLACES {
        assert_place(rt, mem, place);
    }
}

#[test]
fn long_texts_are_ordered(rt: HostRuntime) -> Result<(), Fail> {
    let mut mem = zeros(rt.alloc(), 17_825_792)?;
    assert_places(&rt, &mut mem);
    Ok(())
}
