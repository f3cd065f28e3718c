//! The parts of expressions and declarations that lead back to no expression: attributes, specifiers without bodies,
//! pointers and string literals.
#![tactic(auto)]

mod attributes;
mod literals;
mod nodes;
mod pointers;
mod specifiers;
mod tallies;

pub use attributes::attribute_list;
pub use literals::strings;
pub use nodes::boxed_behind;
pub use pointers::{pointer_words, stars};
pub use specifiers::{Counted, SpecList, plain_spec, plain_specs};
pub use tallies::{Context, Tally};
