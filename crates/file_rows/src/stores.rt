//! Real files that are kept, fetched and missing.

use crate::values::assert_same;
use fc_base::{FetchFault, KeepFault, Store};
use fort_files::FileStore;
use std::alloc::{AllocError, Global};
use std::process::Abort;
use std::rt::Files;
use std::test::Fail;
use std::{env, fs, process};

/// How many bytes are kept and fetched.
const LENGTHS: &[usize] = &[0, 1, 4095, 4096, 4097, 10000];

/// Asserts that the name has these bytes.
fn assert_fetched<R: Files>(
    rt: &impl Abort,
    alloc: Global,
    store: &mut FileStore<R>,
    name: &str,
    bytes: &[u8],
) {
    match store.fetch(alloc, name, bytes.len()) {
        Ok(found) => assert_same(rt, name, Ok(found.as_slice()), Ok::<_, FetchFault>(bytes)),
        Err(fault) => assert_same(rt, name, Err(fault), Ok(bytes)),
    }
}

/// Asserts that a fetch of at most so many bytes fails, and why.
fn assert_not_fetched<R: Files>(
    rt: &impl Abort,
    alloc: Global,
    store: &mut FileStore<R>,
    name: &str,
    max: usize,
    fault: FetchFault,
) {
    assert_same(rt, name, store.fetch(alloc, name, max).err(), Some(fault));
}

fn assert_not_kept<R: Files>(rt: &impl Abort, alloc: Global, store: &mut FileStore<R>, name: &str) {
    let kept = store.keep(alloc, name, b"x");
    assert_same(rt, name, kept, Err(KeepFault::Failed));
}

/// Asserts that so many bytes are kept and fetched, and not where fewer may be.
fn assert_kept<R: Files>(
    rt: &impl Abort,
    alloc: Global,
    store: &mut FileStore<R>,
    name: &str,
    length: usize,
) -> Result<(), AllocError> {
    let bytes = vec![in alloc; 7u8; length]?;
    assert_same(rt, name, store.keep(alloc, name, &bytes), Ok(()));
    assert_fetched(rt, alloc, store, name, &bytes);
    if length > 0 {
        assert_not_fetched(rt, alloc, store, name, length - 1, FetchFault::TooLong);
    }
    Ok(())
}

/// Asserts how often a fetch and a keep of the name failed.
fn assert_faults<R: Files>(
    rt: &impl Abort,
    store: &FileStore<R>,
    name: &str,
    fetch_faults: u64,
    keep_faults: u64,
) {
    let found = (store.fetch_faults(name), store.keep_faults(name));
    assert_same(rt, name, found, (fetch_faults, keep_faults));
}

/// Asserts that each of the lengths is kept and fetched.
fn assert_lengths<R: Files>(
    rt: &impl Abort,
    alloc: Global,
    store: &mut FileStore<R>,
    name: &str,
) -> Result<(), AllocError> {
    for &length in LENGTHS {
        assert_kept(rt, alloc, store, name, length)?;
    }
    Ok(())
}

/// Asserts of names under which there is no file, and of which nothing has been asked, that a fetch and a keep fail.
fn assert_missing<R: Files>(
    rt: &impl Abort,
    alloc: Global,
    store: &mut FileStore<R>,
    names: &[&str],
) {
    for &name in names {
        assert_not_fetched(rt, alloc, store, name, 10, FetchFault::Failed);
        assert_not_kept(rt, alloc, store, name);
    }
    for &name in names {
        assert_faults(rt, store, name, 1, 1);
    }
}

/// The name of a file in no folder.
const NOWHERE: &str = "fortc-test.missing/a";

/// Keeps files under the name and removes them, and then asks for it, for a file in no folder and for the folder.
fn assert_files<R: Abort + Files, F: Files>(
    rt: &R,
    alloc: Global,
    store: &mut FileStore<F>,
    name: &str,
    folder: &str,
) -> Result<(), AllocError> {
    assert_lengths(rt, alloc, store, name)?;
    assert_same(rt, name, fs::remove_file(rt, name).is_ok(), true);
    assert_faults(rt, store, name, 0, 0);
    assert_not_fetched(rt, alloc, store, name, 10, FetchFault::Failed);
    assert_not_fetched(rt, alloc, store, name, 10, FetchFault::Failed);
    assert_missing(rt, alloc, store, &[NOWHERE, folder]);
    assert_faults(rt, store, name, 2, 0);
    Ok(())
}

/// Keeps files on a fresh store under the name in the folder that has the number, and asks for them once they are removed.
fn assert_folder<R: Abort + Files>(
    rt: &R,
    alloc: Global,
    folder: &str,
    number: u32,
) -> Result<(), AllocError> {
    let name = format!(in alloc; "{folder}/fortc-test-{number}")?;
    let mut store = FileStore::new(alloc, rt);
    assert_files(rt, alloc, &mut store, name.as_str(), folder)
}

#[test]
fn files_are_kept_and_fetched(rt: HostRuntime) -> Result<(), Fail> {
    let folder = env::temp_dir(&rt)?;
    assert_folder(&rt, rt.alloc(), folder.as_str(), process::id(rt.process()))?;
    Ok(())
}
