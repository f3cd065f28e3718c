//! Sizes and offsets, as numbers.

ghost use Rattle.std.specs.Prelude.{◌≡◌, ◌≤◌, ◌^◌, pos};
ghost use Rattle.object_meaning.specs.Provenance.{IsWithin};
ghost use Rattle.object_meaning.specs.Sizes.{at_least_none, end_in, rest_in, unknown_size, bound_size};
ghost use Rattle.object_meaning.specs.Touches.{lies_in};

use fc_base::Mode;

/// Whether so many bytes from a place on lie in an object of this size.
pub fn fits(size: u64, start: u64, count: u64) -> bool
    ensures { result ≡ lies_in size (pos start) count }
{
    start <= size && count <= size - start
}

/// No less than 0.
fn at_least_none(number: i64) -> u64
    ensures { result ≡ at_least_none number }
{
    if number < 0 { 0 } else { number as u64 }
}

/// The bytes from an offset to the end that a mode counts, of an object of this size or of a subobject of it.
pub fn rest_of(mode: Mode, size: u64, offset: i64, end: i64) -> u64
    requires small { size ≤ 2 ^ 32 }
    requires starts { IsWithin size offset }
    requires ends { IsWithin size end }
    ensures { result ≡ rest_in mode size offset end }
{
    at_least_none(end_in(mode, size, end) - offset)
}

/// Where the bytes end that a mode counts.
fn end_in(mode: Mode, size: u64, end: i64) -> i64
    requires small { size ≤ 2 ^ 32 }
    requires ends { IsWithin size end }
    ensures end { result ≡ end_in mode size end }
    ensures within { IsWithin size result }
{
    match mode {
        Mode::M0 => size as i64,
        Mode::M1 => end,
        Mode::M2 => size as i64,
        Mode::M3 => end,
    }
}

/// The size of a pointer of which nothing is known.
pub fn unknown_size(mode: Mode) -> u64
    ensures { result ≡ unknown_size mode }
{
    match mode {
        Mode::M0 | Mode::M1 => u64::MAX,
        Mode::M2 | Mode::M3 => 0,
    }
}

/// The size of a pointer of which a bound is known.
pub fn bound_size(mode: Mode, remaining: i64) -> u64
    ensures { result ≡ bound_size mode remaining }
{
    match mode {
        Mode::M0 => u64::MAX,
        Mode::M1 => at_least_none(remaining),
        Mode::M2 => 0,
        Mode::M3 => 0,
    }
}
