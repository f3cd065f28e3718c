//! How an expression goes on with a token, and the levels of expressions.
#![tactic(auto)]

mod levels;
mod operators;

pub use levels::{
    ADDITIVE, ASSIGNMENT, BIT_AND, BIT_OR, BIT_XOR, CAST, CONDITIONAL, EQUALITY, EXPRESSION,
    LOGICAL_AND, LOGICAL_OR, MULTIPLICATIVE, NO_LEVEL, POSTFIX, PRIMARY, RELATIONAL, SHIFT, UNARY,
};
pub use operators::{binds, operator_of, operator_takes};
