//! Constants of static storage: what an expression is as an address constant, and whether it is a constant at all.
#![tactic(auto)]

mod addresses;
mod pointers;
mod steps;

pub use addresses::{address_of, is_constant};
