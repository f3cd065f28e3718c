//! Two texts, block by block.

ghost use Rattle.std.specs.Prelude.{◌≡◌, ◌<◌, ◌==◌, ◌++◌, ℕ, List, length, not, slice_index, if◌then◌else◌};
ghost use Rattle.std.specs.List.{prefix_len};
ghost use Rattle.library_meaning.specs.Table.{order};
ghost use Rattle.str_chk.specs.Pairs.{both_scan, order_found, order_or};

use std::simd::prelude::*;

/// How many bytes of two texts are compared at once.
pub const BLOCK: usize = 32;

/// Each byte of the first that the second has at the same place, and 0 elsewhere.
#[inline(always)]
fn shared(left: u8x32, right: u8x32) -> u8x32
    requires left { length left ≡ 32 }
    requires right { length right ≡ 32 }
    ensures long { length result ≡ 32 }
    ensures each { (k : ℕ) → k < 32
        → slice_index result k ≡ (if slice_index left k == slice_index right k then slice_index left k else 0) }
{
    left.simd_eq(right).select(left, u8x32::splat(0))
}

/// How many bytes stand before the first zero byte.
#[inline(always)]
fn before_zero(bytes: u8x32) -> usize
    requires { length bytes ≡ 32 }
    ensures { result ≡ prefix_len (λ byte. not (byte == 0)) bytes }
{
    let zeros = bytes.simd_eq(u8x32::splat(0)).to_bitmask();
    if zeros == 0 {
        BLOCK
    } else {
        zeros.trailing_zeros() as usize
    }
}

/// -1, 0 or 1 by two bytes as unsigned characters.
fn order(left: u8, right: u8) -> u64
    ensures { result ≡ order left right }
{
    if left < right {
        u64::MAX
    } else if right < left {
        1
    } else {
        0
    }
}

/// The order of two texts that begin with these blocks: told where they differ or end here.
#[inline(always)]
pub fn compare_blocks(left: &[u8], right: &[u8]) -> Option<u64>
    requires left { length left.now ≡ 32 }
    requires right { length right.now ≡ 32 }
    ensures { (xs ys : List ℕ) → order_found (both_scan (left.now ++ xs) (right.now ++ ys)) ≡ order_or result xs ys }
{
    let both = shared(u8x32::from_slice(left), u8x32::from_slice(right));
    let stop = before_zero(both);
    if stop < BLOCK {
        Some(order(left[stop], right[stop]))
    } else {
        None
    }
}
