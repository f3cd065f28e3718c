//! External declarations, read from tokens (C11 6.9).
#![tactic(auto)]

mod externals;

pub use externals::{NamedExternal, external};
