//! Parses a file: tokens to the tree of C11 6.9, or the first refusal.
#![tactic(auto)]

mod file;

pub use file::parse;
