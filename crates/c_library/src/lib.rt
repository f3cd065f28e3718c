//! The functions of the C library that a source can call, one row each.
#![tactic(auto)]

mod functions;
mod laws;
mod numbers;

pub use functions::{CheckedForm, LibFn, LibType, lib_mode};
pub use laws::{host_numbers_law, library_law};
pub use numbers::host_call;
