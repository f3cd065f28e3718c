//! Expressions from tokens, and the bounds and abstract declarators that have them as parts.
#![tactic(auto)]

mod expressions;
mod infixes;
mod operands;
mod terms;

pub use expressions::{abstract_declarator, bound, expression};
