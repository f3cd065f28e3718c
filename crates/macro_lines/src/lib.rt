//! What lines say by themselves: what a list begins with, words, the macros of headers, and conditions.
#![tactic(auto)]

mod builtins;
mod conditions;
mod headers;
mod lines;

pub use builtins::{Builtins, Entry, make_builtins};
pub use conditions::{holds, item};
pub use headers::{fortify_source, header_macros};
pub use lines::{GroupPart, after, directive_word, first, is_defined_word, name_of, part_of};
