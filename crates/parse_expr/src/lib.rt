//! Expressions in a list of tokens.
#![tactic(auto)]

mod spans;

pub use spans::{ExprForm, parse_expression};
