//! A source before it is compiled: lexed, preprocessed and read, or refused.
#![tactic(auto)]

mod front;
mod laws;

pub use fort_forms::Form;
pub use front::{read_form_of, read_source};
pub use laws::{numbers_are_lexed, one_compiled, one_front};
