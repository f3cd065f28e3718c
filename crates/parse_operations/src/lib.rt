//! Expressions so far, what they go on with, and the nodes that come of it.
#![tactic(auto)]

mod left_operands;
mod operations;

pub use left_operands::{LeftOperand, boxed_pair};
pub use operations::{Operation, with_operation};
