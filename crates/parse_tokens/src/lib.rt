//! Tokens as the parsers read them: each with what it is to the grammar.
#![tactic(auto)]

mod copies;
mod endings;
mod faults;
mod held;
mod terminals;
mod tokens;
mod type_names;
mod words;

pub use copies::{copy_text, text_of};
pub use endings::{
    before_colon, before_comma, before_right_bracket, before_right_paren, before_semicolon,
};
pub use faults::{ParseFault, WithHeight};
pub use held::kept;
pub use terminals::{is_tag, is_word};
pub use tokens::Tokens;
pub use type_names::TypeNames;
