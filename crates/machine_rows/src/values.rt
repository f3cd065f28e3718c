//! The one comparison of the rows: one that prints both values is dear to prove wherever it stands.

use std::fmt::{Debug, Display};
use std::process::Abort;

/// Asserts that what was found of a row is what is wanted.
pub fn assert_same<N: Copy + Display, T: Copy + Debug + PartialEq>(
    rt: &impl Abort,
    row: N,
    found: T,
    wanted: T,
) {
    assert_eq!(rt; found, wanted, "{row}");
}
