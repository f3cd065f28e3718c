//! Stores that hold what was put and kept, and that fail the calls that they are told to fail.

use crate::values::assert_same;
use fc_base::{FetchFault, MemStore, NoMemory, Store};
use std::alloc::Global;
use std::process::Abort;
use std::test::Fail;

/// Asserts that the name has these bytes, which are fetched where at most so many may be.
fn assert_fetched(
    rt: &impl Abort,
    alloc: Global,
    store: &mut MemStore,
    name: &str,
    max: usize,
    bytes: &[u8],
) {
    match store.fetch(alloc, name, max) {
        Ok(found) => assert_same(rt, name, Ok(found.as_slice()), Ok::<_, FetchFault>(bytes)),
        Err(fault) => assert_same(rt, name, Err(fault), Ok(bytes)),
    }
}

/// Asserts that the fetch gives no bytes, and why.
fn assert_not_fetched(
    rt: &impl Abort,
    alloc: Global,
    store: &mut MemStore,
    name: &str,
    max: usize,
    fault: FetchFault,
) {
    assert_same(rt, name, store.fetch(alloc, name, max).err(), Some(fault));
}

/// Asserts that the name has these bytes.
fn assert_bytes(rt: &impl Abort, store: &MemStore, name: &str, bytes: &[u8]) {
    assert_same(rt, name, store.bytes(name), Some(bytes));
}

/// Asserts how often a keep and a fetch of the name failed.
fn assert_faults(
    rt: &impl Abort,
    store: &MemStore,
    name: &str,
    keep_faults: u64,
    fetch_faults: u64,
) {
    let found = (store.keep_faults(name), store.fetch_faults(name));
    assert_same(rt, name, found, (keep_faults, fetch_faults));
}

fn assert_answers(rt: &impl Abort, alloc: Global, store: &mut MemStore) -> Result<(), NoMemory> {
    assert_not_fetched(rt, alloc, store, "a", 9, FetchFault::Failed);
    store.put("a", b"old")?;
    assert_not_fetched(rt, alloc, store, "a", 2, FetchFault::TooLong);
    assert_fetched(rt, alloc, store, "a", 3, b"old");
    assert_same(rt, "b", store.keep(alloc, "b", b"new"), Ok(()));
    assert_fetched(rt, alloc, store, "b", 3, b"new");
    assert_bytes(rt, store, "a", b"old");
    assert_faults(rt, store, "a", 0, 1);
    assert_faults(rt, store, "b", 0, 0);
    Ok(())
}

#[test]
fn answers_with_ample_memory(rt: HostRuntime) -> Result<(), Fail> {
    let alloc = rt.alloc();
    let mut store = MemStore::new(alloc);
    let asserted = assert_answers(&rt, alloc, &mut store);
    drop(store);
    asserted?;
    Ok(())
}

/// The call that fails, the bytes that a keep and a fetch then leave, and whether the keep and the fetch failed.
type FailingRow = (u64, &'static [u8], u64, u64);

const FAILING: &[FailingRow] = &[(0, b"old", 1, 0), (1, b"new", 0, 1), (2, b"new", 0, 0)];

/// Asserts what the row says, of a store that fails the row's call.
fn assert_failing(
    rt: &impl Abort,
    alloc: Global,
    store: &mut MemStore,
    &(call, bytes, keep_faults, fetch_faults): &FailingRow,
) -> Result<(), NoMemory> {
    store.put("a", b"old")?;
    let kept = store.keep(alloc, "a", b"new").is_ok();
    let fetched = store.fetch(alloc, "a", 3).is_ok();
    assert_same(
        rt,
        call,
        (kept, fetched),
        (keep_faults == 0, fetch_faults == 0),
    );
    assert_bytes(rt, store, "a", bytes);
    assert_faults(rt, store, "a", keep_faults, fetch_faults);
    Ok(())
}

/// Asserts a row on a fresh store.
fn assert_row(rt: &impl Abort, alloc: Global, row: &FailingRow) -> Result<(), NoMemory> {
    let mut store = MemStore::failing(alloc, &[row.0])?;
    assert_failing(rt, alloc, &mut store, row)
}

#[test]
fn fails_the_named_call(rt: HostRuntime) -> Result<(), Fail> {
    let alloc = rt.alloc();
    for row in FAILING {
        assert_row(&rt, alloc, row)?;
    }
    Ok(())
}
