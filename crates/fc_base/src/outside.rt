//! The world outside: a store of named bytes, a source of bytes and a sink for bytes.
//!
//! Each object may tell what it means, or tell nothing: a clause on content holds where it is told.
//! Each object counts its faults. A count never falls, and stands still at 2^64 - 1.

ghost use Rattle.std.specs.Prelude.{◌≡◌, ◌≢◌, ℕ, ◌<◌, ◌≤◌, List, [], take, length, vec_len, Option, None, Some, Ok, Err, IfOk, OnOk, OnErr, IsSomeAnd};
ghost use Rattle.fc_base.specs.Outside.{Files, IfTold, Takes, IsAtEnd, Appends, AppendsFront, Puts, KeepsOthers, Counts, Rose};

use crate::faults::{Failed, FetchFault, KeepFault};
use std::alloc::Global;

/// Named byte strings. A missing name is a fault of `fetch`.
pub trait Store {
    /// The bytes under each name, where the store tells them.
    ghost files: { Self → Option Files };

    /// How often `fetch` of each name failed.
    ghost fetch_count: { Self → List ℕ → ℕ };

    /// How often `keep` of each name failed.
    ghost keep_count: { Self → List ℕ → ℕ };

    /// The bytes under the name, where they are at most `max`.
    fn fetch(&mut self, alloc: Global, name: &str, max: usize) -> Result<Vec<u8>, FetchFault>
        ensures found { IfOk result (λ v. IfTold (files self.old) (λ f. f name.now ≡ Some v.items)) }
        ensures bound { IfOk result (λ v. vec_len v ≤ max) }
        ensures too_long { result ≡ Err FetchFault.TooLong →
            IfTold (files self.old) (λ f. IsSomeAnd (f name.now) (λ bytes. max < length bytes)) }
        ensures failed { result ≡ Err FetchFault.Failed →
            Rose (fetch_count self.old name.now) (fetch_count self.new name.now) }
        ensures same_files { files self.new ≡ files self.old }
        ensures uncounted { result ≢ Err FetchFault.Failed →
            fetch_count self.new name.now ≡ fetch_count self.old name.now }
        ensures counts { Counts (fetch_count self.old name.now) (fetch_count self.new name.now) }
        ensures other_fetches { (other : List ℕ) → other ≢ name.now →
            fetch_count self.new other ≡ fetch_count self.old other }
        ensures same_keeps { (other : List ℕ) → keep_count self.new other ≡ keep_count self.old other };

    /// Sets the name's bytes. After a failure they are unknown; after want of memory nothing changed.
    fn keep(&mut self, alloc: Global, name: &str, bytes: &[u8]) -> Result<(), KeepFault>
        ensures kept { OnOk result (Puts name.now bytes.now (files self.old) (files self.new)) }
        ensures others { KeepsOthers name.now (files self.old) (files self.new) }
        ensures no_memory { result ≡ Err KeepFault.NoMemory → files self.new ≡ files self.old }
        ensures uncounted { result ≢ Err KeepFault.Failed →
            keep_count self.new name.now ≡ keep_count self.old name.now }
        ensures failed { result ≡ Err KeepFault.Failed →
            Rose (keep_count self.old name.now) (keep_count self.new name.now) }
        ensures counts { Counts (keep_count self.old name.now) (keep_count self.new name.now) }
        ensures other_keeps { (other : List ℕ) → other ≢ name.now →
            keep_count self.new other ≡ keep_count self.old other }
        ensures same_fetches { (other : List ℕ) → fetch_count self.new other ≡ fetch_count self.old other };

    /// How often `fetch` of the name failed.
    fn fetch_faults(&self, name: &str) -> u64
        ensures { result ≡ fetch_count self.now name.now };

    /// How often `keep` of the name failed.
    fn keep_faults(&self, name: &str) -> u64
        ensures { result ≡ keep_count self.now name.now };
}

/// A stream of bytes that is read once.
pub trait Source {
    /// The bytes left, where the source tells them.
    ghost left: { Self → Option (List ℕ) };

    /// How often `read` failed.
    ghost count: { Self → ℕ };

    /// Takes bytes to the front of `buf` and gives their number. At least one is taken unless `buf` is empty or
    /// no byte is left, so 0 for a buffer that is not empty means the end, which is told from then on. A source that
    /// tells nothing comes to tell at most that. After a failure none was taken.
    fn read(&mut self, buf: &mut [u8]) -> Result<usize, Failed>
        ensures bound { IfOk result (λ n. n ≤ length buf.new) }
        ensures taken { IfOk result (λ n. Takes (take n buf.new) (left self.old) (left self.new)) }
        ensures end { IfOk result (λ n. n ≡ 0 → 0 < length buf.old → left self.new ≡ Some []) }
        ensures untold { left self.old ≡ None → IsAtEnd (left self.new) }
        ensures none_taken { OnErr result (left self.new ≡ left self.old) }
        ensures failed { OnErr result (Rose (count self.old) (count self.new)) }
        ensures counts { Counts (count self.old) (count self.new) }
        ensures empty { length buf.old ≡ 0 → (result ≡ Ok 0) × (self.new ≡ self.old) };

    /// How often `read` failed.
    fn faults(&self) -> u64
        ensures { result ≡ count self.now };
}

/// A stream of bytes that is written once.
pub trait Sink {
    /// The bytes written, where the sink tells them.
    ghost written: { Self → Option (List ℕ) };

    /// How often `write` failed.
    ghost count: { Self → ℕ };

    /// Appends the whole piece. After a failure a front of it was appended.
    fn write(&mut self, bytes: &[u8]) -> Result<(), Failed>
        ensures appended { OnOk result (Appends bytes.now (written self.old) (written self.new)) }
        ensures front_appended { OnErr result (AppendsFront bytes.now (written self.old) (written self.new)) }
        ensures failed { OnErr result (Rose (count self.old) (count self.new)) }
        ensures counts { Counts (count self.old) (count self.new) }
        ensures empty { bytes.now ≡ [] → (result ≡ Ok tt) × (self.new ≡ self.old) };

    /// How often `write` failed.
    fn faults(&self) -> u64
        ensures { result ≡ count self.now };
}
