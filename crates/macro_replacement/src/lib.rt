//! Macro replacement in a list of tokens (C11 6.10.3).
#![tactic(auto)]

mod replacement;
mod turns;

pub use replacement::{append_replaced, replace};
