//! Specifiers with the bodies of structures, unions and enumerations, read from tokens (C11 6.7.2).
#![tactic(auto)]

mod enumerations;
mod members;
mod specifiers;

pub use specifiers::outer_specs;
