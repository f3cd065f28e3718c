//! Expressions: each kind of node by its written parts, or the first rule that it breaks (C11 6.5).
#![tactic(auto)]

mod called;
mod calls;
mod constants;
mod formats;
mod members;
mod names;
mod nodes;
mod sizes;
mod slices;

pub use constants::{character, number, text};
pub use names::name;
pub use nodes::{Nodes, size_of_type};
