//! Functions that read expressions, declarations, statements and files, and the laws that tie them to the grammar of
//! `parse_meaning`: what they find is in it, and what is in it they find.
#![tactic(auto)]

mod laws;
mod operators;

pub use laws::{derives_one, expression_is_one, external_is_one};
pub use operators::Operator;
