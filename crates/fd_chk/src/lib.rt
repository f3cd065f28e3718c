//! The calls of the library on descriptors.
#![tactic(auto)]

mod taking;
mod writing;

pub use taking::{getchar_c, read_c};
pub use writing::{putchar_c, puts_c, write_c};
