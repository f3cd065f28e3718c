//! Bytes of the machine's memory, as the calls of the library touch them.
#![tactic(auto)]

mod bytes;
mod comparing;
mod finding;

pub use bytes::{FIRST_VALID, MEMORY_SIZE, copy, copy_and_fill, fill, is_valid};
pub use comparing::compare;
pub use finding::{Text, find};
