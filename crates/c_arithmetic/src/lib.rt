//! The arithmetic of C's integers.
#![tactic(auto)]

mod laws;
mod operators;

pub use laws::{conversion_law, exact_law, values_law};
pub use operators::{BadOperation, BinaryOperator, IntType, UnaryOperator, binary, unary};
