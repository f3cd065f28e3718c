//! Type names, bounds and abstract declarators, over a function that reads expressions.
#![tactic(auto)]

mod abstracts;
mod grammar;

pub use grammar::Grammar;
