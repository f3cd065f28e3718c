//! The one comparison of the rows: one that prints both values is dear to prove wherever it stands.

use std::fmt::Debug;
use std::process::Abort;

/// Asserts that what was found is what is wanted.
pub fn assert_same<T: Copy + Debug + PartialEq>(rt: &impl Abort, found: T, wanted: T) {
    assert_eq!(rt; found, wanted);
}
