//! A store in memory, which fails the calls that it is told to fail.

ghost use Rattle.std.specs.Prelude.{◌≡◌, ◌≢◌, ℕ, ◌<◌, ◌≤◌, List, [], length, vec_len, option_copied, option_map, None, Some, Err, IfOk, OnOk, OnErr, IsSome, IsSomeAnd};
ghost use Rattle.std.specs.BTreeMap.{get_by_text};
ghost use Rattle.fc_base.specs.Outside.{one_more};
ghost use Rattle.fc_base.specs.MemoryStore.{count_of, files_of, fetch_count_of, keep_count_of, failing_of, calls_of, fails_next, fetched, AnswersFetch, AnswersKeep, faults_after_fetch, calls_after_fetch, faults_after_keep, calls_after_keep, KeepsCounts, IsNew};
ghost use Rattle.fc_base.specs.Outside.{last_count, Puts, KeepsOthers, Counts, Rose};

use crate::faults::{FetchFault, KeepFault, NoMemory};
use crate::outside::Store;
use std::alloc::Global;
use std::collections::BTreeMap;

/// How often the calls of each name failed.
#[derive(Debug, Drop)]
struct FaultCounts {
    counts: BTreeMap<String, u64>,
}

#[tactic(auto, using(std::proofs::lemmas::Map::Text::text_keys))]
impl FaultCounts {
    fn new(alloc: Global) -> FaultCounts
        ensures { (name : List ℕ) → count_of result name ≡ 0 }
    {
        FaultCounts {
            counts: BTreeMap::new(alloc),
        }
    }

    fn count(&self, name: &str) -> u64
        ensures { result ≡ count_of self.now name.now }
    {
        self.counts.get(name).copied().unwrap_or(0)
    }

    /// Makes the room for the name's count, so that it can be raised.
    fn make_room(&mut self, alloc: Global, name: &str) -> Result<(), NoMemory>
        ensures room { OnOk result (IsSome (get_by_text self.new.counts name.now)) }
        ensures same { (other : List ℕ) → count_of self.new other ≡ count_of self.old other }
        ensures within { count_of self.old name.now ≤ last_count }
    {
        let count = self.count(name);
        let key = String::from_str(alloc, name)?;
        self.counts.insert(key, count)?;
        Ok(())
    }

    fn raise(&mut self, name: &str)
        requires { IsSome (get_by_text self.old.counts name.now) }
        ensures raised { count_of self.new name.now ≡ one_more (count_of self.old name.now) }
        ensures others { (other : List ℕ) → other ≢ name.now →
            count_of self.new other ≡ count_of self.old other }
    {
        if let Some(count) = self.counts.get_mut(name) {
            *count = count.saturating_add(1);
        }
    }
}

/// Named byte strings in memory. A fetch of a missing name fails, and so do the calls that the store is told to fail.
#[derive(Debug, Drop)]
pub struct MemStore {
    alloc: Global,
    files: BTreeMap<String, Vec<u8>>,
    fetch_faults: FaultCounts,
    keep_faults: FaultCounts,
    failing: Vec<u64>,
    calls: u64,
}

impl MemStore {
    /// An empty store that fails no call but the fetch of a missing name.
    pub fn new(alloc: Global) -> MemStore
        ensures { IsNew [] result }
    {
        MemStore {
            alloc,
            files: BTreeMap::new(alloc),
            fetch_faults: FaultCounts::new(alloc),
            keep_faults: FaultCounts::new(alloc),
            failing: Vec::new(alloc),
            calls: 0,
        }
    }

    /// An empty store that also fails the calls with these numbers, counted from 0 over `fetch` and `keep`.
    pub fn failing(alloc: Global, calls: &[u64]) -> Result<MemStore, NoMemory>
        ensures { IfOk result (IsNew calls.now) }
    {
        let mut store = MemStore::new(alloc);
        store.failing = Vec::from_slice(alloc, calls)?;
        Ok(store)
    }

    /// The bytes under the name, none where it is missing.
    pub fn bytes(&self, name: &str) -> Option<&[u8]>
        ensures { option_copied result ≡ files_of self.now name.now }
    {
        match self.files.get(name) {
            Some(bytes) => Some(bytes.as_slice()),
            None => None,
        }
    }

    /// Sets the name's bytes, and is not counted as a call. After want of memory the store is as it was.
    #[tactic(auto, using(std::proofs::lemmas::Map::Text::text_keys))]
    pub fn put(&mut self, name: &str, bytes: &[u8]) -> Result<(), NoMemory>
        ensures put { OnOk result (Puts name.now bytes.now (Some (files_of self.old)) (Some (files_of self.new))) }
        ensures counts { KeepsCounts self.old self.new }
        ensures no_memory { OnErr result (files_of self.new ≡ files_of self.old) }
    {
        let key = String::from_str(self.alloc, name)?;
        let bytes = Vec::from_slice(self.alloc, bytes)?;
        self.files.insert(key, bytes)?;
        Ok(())
    }

    fn fails_next(&self) -> bool
        ensures { result ≡ fails_next self.now }
    {
        self.failing.contains(&self.calls)
    }

    /// What a fetch answers.
    fn look_up(&self, alloc: Global, name: &str, max: usize) -> Result<Vec<u8>, FetchFault>
        ensures found { IfOk result (λ v. files_of self.now name.now ≡ Some v.items) }
        ensures bound { IfOk result (λ v. vec_len v ≤ max) }
        ensures too_long { result ≡ Err FetchFault.TooLong →
            IsSomeAnd (files_of self.now name.now) (λ bytes. max < length bytes) }
        ensures answer { AnswersFetch (fetched self.now name.now max) result }
    {
        if self.fails_next() {
            return Err(FetchFault::Failed);
        }
        let Some(bytes) = self.bytes(name) else {
            return Err(FetchFault::Failed);
        };
        if bytes.len() > max {
            return Err(FetchFault::TooLong);
        }
        match Vec::from_slice(alloc, bytes) {
            Ok(copy) => Ok(copy),
            Err(_) => Err(FetchFault::NoMemory),
        }
    }
}

impl Store for MemStore {
    ghost files = { λ store. Some (files_of store) };

    ghost fetch_count = { fetch_count_of };

    ghost keep_count = { keep_count_of };

    fn fetch(&mut self, alloc: Global, name: &str, max: usize) -> Result<Vec<u8>, FetchFault>
        ensures found { IfOk result (λ v. files_of self.old name.now ≡ Some v.items) }
        ensures bound { IfOk result (λ v. vec_len v ≤ max) }
        ensures too_long { result ≡ Err FetchFault.TooLong →
            IsSomeAnd (files_of self.old name.now) (λ bytes. max < length bytes) }
        ensures failed { result ≡ Err FetchFault.Failed →
            Rose (fetch_count_of self.old name.now) (fetch_count_of self.new name.now) }
        ensures same_files { Some (files_of self.new) ≡ Some (files_of self.old) }
        ensures uncounted { result ≢ Err FetchFault.Failed →
            fetch_count_of self.new name.now ≡ fetch_count_of self.old name.now }
        ensures counts { Counts (fetch_count_of self.old name.now) (fetch_count_of self.new name.now) }
        ensures other_fetches { (other : List ℕ) → other ≢ name.now →
            fetch_count_of self.new other ≡ fetch_count_of self.old other }
        ensures same_keeps { (other : List ℕ) → keep_count_of self.new other ≡ keep_count_of self.old other }

        // The answer, and what it leaves of the counts.
        ensures answer { AnswersFetch (fetched self.old name.now max) result }
        ensures faults { fetch_count_of self.new name.now
            ≡ faults_after_fetch result (fetch_count_of self.old name.now) }
        ensures calls { calls_of self.new ≡ calls_after_fetch result (calls_of self.old) }
        ensures failing { failing_of self.new ≡ failing_of self.old }
    {
        if self.fetch_faults.make_room(alloc, name).is_err() {
            return Err(FetchFault::NoMemory);
        }
        match self.look_up(alloc, name, max) {
            Err(FetchFault::NoMemory) => Err(FetchFault::NoMemory),
            Err(FetchFault::Failed) => {
                self.calls = self.calls.saturating_add(1);
                self.fetch_faults.raise(name);
                Err(FetchFault::Failed)
            }
            answer => {
                self.calls = self.calls.saturating_add(1);
                answer
            }
        }
    }

    fn keep(&mut self, alloc: Global, name: &str, bytes: &[u8]) -> Result<(), KeepFault>
        ensures kept { OnOk result
            (Puts name.now bytes.now (Some (files_of self.old)) (Some (files_of self.new))) }
        ensures others { KeepsOthers name.now (Some (files_of self.old)) (Some (files_of self.new)) }
        ensures no_memory { result ≡ Err KeepFault.NoMemory →
            Some (files_of self.new) ≡ Some (files_of self.old) }
        ensures uncounted { result ≢ Err KeepFault.Failed →
            keep_count_of self.new name.now ≡ keep_count_of self.old name.now }
        ensures failed { result ≡ Err KeepFault.Failed →
            Rose (keep_count_of self.old name.now) (keep_count_of self.new name.now) }
        ensures counts { Counts (keep_count_of self.old name.now) (keep_count_of self.new name.now) }
        ensures other_keeps { (other : List ℕ) → other ≢ name.now →
            keep_count_of self.new other ≡ keep_count_of self.old other }
        ensures same_fetches { (other : List ℕ) → fetch_count_of self.new other ≡ fetch_count_of self.old other }

        // The answer, and what it leaves of the files and the counts.
        ensures answer { AnswersKeep (fails_next self.old) result }
        ensures not_kept { OnErr result (files_of self.new ≡ files_of self.old) }
        ensures faults { keep_count_of self.new name.now
            ≡ faults_after_keep result (keep_count_of self.old name.now) }
        ensures calls { calls_of self.new ≡ calls_after_keep result (calls_of self.old) }
        ensures failing { failing_of self.new ≡ failing_of self.old }
    {
        if self.keep_faults.make_room(alloc, name).is_err() {
            return Err(KeepFault::NoMemory);
        }
        if self.fails_next() {
            self.calls = self.calls.saturating_add(1);
            self.keep_faults.raise(name);
            return Err(KeepFault::Failed);
        }
        match self.put(name, bytes) {
            Ok(()) => {
                self.calls = self.calls.saturating_add(1);
                Ok(())
            }
            Err(NoMemory) => Err(KeepFault::NoMemory),
        }
    }

    fn fetch_faults(&self, name: &str) -> u64 {
        self.fetch_faults.count(name)
    }

    fn keep_faults(&self, name: &str) -> u64 {
        self.keep_faults.count(name)
    }
}
