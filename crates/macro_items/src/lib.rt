//! Tokens under expansion, with their hide sets, and what macros and calls are made of.
#![tactic(auto)]

mod calls;
mod hide;
mod items;

pub use calls::{Call, gather, right_number};
pub use hide::{HideSet, Hides};
pub use items::{
    Argument, Arguments, BodyPart, Item, Macro, Macros, NESTING_LIMIT, closes, find, is_comma,
    opens,
};
