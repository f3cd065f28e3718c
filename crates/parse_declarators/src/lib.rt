//! Declarators read from tokens (C11 6.7.6).
#![tactic(auto)]

mod declarators;
mod named;
mod params;

pub use declarators::declarator;
pub use named::{Named, Nearest};
