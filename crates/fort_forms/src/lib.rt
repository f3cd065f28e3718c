//! The one form of source that is compiled so far, read off its tokens.
#![tactic(auto)]

mod forms;

pub use forms::{Form, read_form};
