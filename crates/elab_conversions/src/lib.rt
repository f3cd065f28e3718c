//! Operators, and the conversions that typing adds: each node by its typed operands, or the first rule that it breaks.
#![tactic(auto)]

mod added;
mod judging;
mod nodes;
mod operands;
mod operations;
mod singles;

pub use added::{converted, decayed};
pub use judging::judge;
pub use nodes::Operators;
pub use operands::{fits, has_size, is_null, points_to_no_size};
