//! What stands behind an item of a list, whether a parameter has a name, and names with their places (C11 6.7.2 and 6.7.6).
#![tactic(auto)]

mod ends;
mod identifiers;
mod lookahead;

pub use ends::{take_body_end, take_declarators_end, take_enumerators_end, take_params_end};
pub use identifiers::copy_identifier;
pub use lookahead::names;
