//! Requests and releases on a heap.

use bm_heap::Heap;
use std::process::Abort;
use std::test::Fail;

fn assert_place(rt: &impl Abort, found: Option<u64>, wanted: Option<u64>) {
    assert!(rt; found == wanted);
}

/// A request takes one byte more than it asks for, in sixteens, at the front of the first hole that holds them; a block that is let
/// go is one with the holes beside it.
#[test]
fn first_fit_and_merging(rt: HostRuntime) -> Result<(), Fail> {
    let mut heap = Heap::new(rt.alloc())?;
    assert_place(&rt, heap.take(0), Some(0));
    assert_place(&rt, heap.take(15), Some(16));
    assert_place(&rt, heap.take(16), Some(32));
    assert_place(&rt, heap.size_at(32), Some(16));
    assert_place(&rt, heap.give(16).ok(), Some(15));
    assert_place(&rt, heap.take(15), Some(16));
    assert_place(&rt, heap.give(0).ok(), Some(0));
    assert_place(&rt, heap.take(31), Some(64));
    assert_place(&rt, heap.give(16).ok(), Some(15));
    assert_place(&rt, heap.take(31), Some(0));
    Ok(())
}

/// A place that is no live block's is none, and a request that no hole holds gets none.
#[test]
fn no_block_and_no_hole(rt: HostRuntime) -> Result<(), Fail> {
    let mut heap = Heap::new(rt.alloc())?;
    assert_place(&rt, heap.give(0).ok(), None);
    assert_place(&rt, heap.take(8_388_608), None);
    assert_place(&rt, heap.take(18_446_744_073_709_551_615), None);
    assert_place(&rt, heap.take(63), Some(0));
    assert_place(&rt, heap.give(16).ok(), None);
    assert_place(&rt, heap.size_at(8), None);
    assert_place(&rt, heap.take(8_388_544), None);
    assert_place(&rt, heap.take(8_388_543), Some(64));
    assert_place(&rt, heap.take(0), None);
    assert_place(&rt, heap.size_at(8_388_608), None);
    Ok(())
}
