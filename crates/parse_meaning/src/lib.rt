//! The grammar of C (C11 6.5 to 6.9, without what is left out) as a relation between tokens and trees.
#![tactic(auto)]

mod laws;
mod terminals;

pub use laws::{derived_is_low, height_is_its_trees};
pub use terminals::{Brackets, Keyword, Terminal};
