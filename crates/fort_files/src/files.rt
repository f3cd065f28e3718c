//! Files as a store: a name is a path.
//!
//! What a file holds is told by no clause.

ghost use Rattle.std.specs.Prelude.{◌≡◌, ◌≢◌, ◌≤◌, [], ◌∷◌, ◌++◌, None, Err, min, vec_len, IfOk};
ghost use Rattle.fc_base.specs.Outside.{last_count};
ghost use Rattle.fort_files.specs.Failures.{times};

use crate::failures::Failures;
use crate::transfer::{read_at_most, write_whole};
use fc_base::{Failed, FetchFault, KeepFault, Store};
use std::alloc::Global;
use std::fs;
use std::rt::Files;

/// The files of a runtime, with the names of the failed calls.
#[derive(Drop)]
pub struct FileStore<R> {
    files: R,
    failed_fetches: Failures,
    failed_keeps: Failures,
}

/// Opens the file and reads it, where it has at most `max` bytes.
fn read_file<R: Files>(
    alloc: Global,
    files: &R,
    name: &str,
    max: usize,
) -> Result<Vec<u8>, FetchFault>
    ensures { IfOk result (λ v. vec_len v ≤ max) }
{
    match fs::open(files, name) {
        Ok(mut file) => read_at_most(alloc, &mut file, max),
        Err(_) => Err(FetchFault::Failed),
    }
}

/// Makes the file, or empties it, and writes the bytes.
fn write_file<R: Files>(files: &R, name: &str, bytes: &[u8]) -> Result<(), Failed> {
    match fs::create(files, name) {
        Ok(mut file) => write_whole(&mut file, bytes),
        Err(_) => Err(Failed),
    }
}

impl<R: Files> FileStore<R> {
    pub fn new(alloc: Global, files: R) -> FileStore<R>
        ensures no_fetches { result.failed_fetches ≡ [] }
        ensures no_keeps { result.failed_keeps ≡ [] }
    {
        FileStore {
            files,
            failed_fetches: Failures::new(alloc),
            failed_keeps: Failures::new(alloc),
        }
    }

    /// Reads the file, and notes a failure. The note is made before the call acts, and taken back where it did not
    /// fail.
    fn read_noted(&mut self, alloc: Global, name: &str, max: usize) -> Result<Vec<u8>, FetchFault>
        ensures bound { IfOk result (λ v. vec_len v ≤ max) }
        ensures failed { result ≡ Err FetchFault.Failed →
            self.new.failed_fetches ≡ self.old.failed_fetches ++ name.now ∷ [] }
        ensures not_failed { result ≢ Err FetchFault.Failed →
            self.new.failed_fetches ≡ self.old.failed_fetches }
        ensures same_keeps { self.new.failed_keeps ≡ self.old.failed_keeps }
    {
        let Ok(()) = self.failed_fetches.add(name) else {
            return Err(FetchFault::NoMemory);
        };
        let result = read_file(alloc, &self.files, name, max);
        match &result {
            Err(FetchFault::Failed) => {}
            _ => self.failed_fetches.take_back(),
        }
        result
    }

    /// Writes the file, and notes a failure in the same way.
    fn write_noted(&mut self, name: &str, bytes: &[u8]) -> Result<(), KeepFault>
        ensures failed { result ≡ Err KeepFault.Failed →
            self.new.failed_keeps ≡ self.old.failed_keeps ++ name.now ∷ [] }
        ensures not_failed { result ≢ Err KeepFault.Failed →
            self.new.failed_keeps ≡ self.old.failed_keeps }
        ensures same_fetches { self.new.failed_fetches ≡ self.old.failed_fetches }
    {
        let Ok(()) = self.failed_keeps.add(name) else {
            return Err(KeepFault::NoMemory);
        };
        let Ok(()) = write_file(&self.files, name, bytes) else {
            return Err(KeepFault::Failed);
        };
        self.failed_keeps.take_back();
        Ok(())
    }
}

#[tactic(auto, using(crate::proofs::FailureCounts::times_of_added))]
impl<R: Files> Store for FileStore<R> {
    ghost files = { λ _. None };

    ghost fetch_count = { λ store name. min (times store.failed_fetches name) last_count };

    ghost keep_count = { λ store name. min (times store.failed_keeps name) last_count };

    fn fetch(&mut self, alloc: Global, name: &str, max: usize) -> Result<Vec<u8>, FetchFault> {
        self.read_noted(alloc, name, max)
    }

    fn keep(&mut self, _alloc: Global, name: &str, bytes: &[u8]) -> Result<(), KeepFault> {
        self.write_noted(name, bytes)
    }

    fn fetch_faults(&self, name: &str) -> u64 {
        self.failed_fetches.count(name)
    }

    fn keep_faults(&self, name: &str) -> u64 {
        self.failed_keeps.count(name)
    }
}
