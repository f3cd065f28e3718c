//! Initialisers: what their items become, and the data of static variables.
#![tactic(auto)]

mod bytes;
mod data;
mod leaves;

pub use data::{StaticData, constant_leaves, is_constant_leaf};
pub use leaves::{Target, completed, is_char_array, leaf, text_leaf};
