//! Definitions of macros, when two are the same, and what is known between two directives.
#![tactic(auto)]

mod definitions;
mod sameness;
mod states;

pub use definitions::{Definition, definition_of, meaning, operator};
pub use sameness::{same_header, same_meaning};
pub use states::{State, set_macro, takes, unset_macro};
