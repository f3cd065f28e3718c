//! The two rules that look at a whole file before the grammar of C11 6.9 applies.
#![tactic(auto)]

mod limits;

pub use limits::{deep_bracket, left_out_keyword};
