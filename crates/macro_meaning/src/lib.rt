//! Preprocessing as a relation between lists of tokens (C11 6.10), and its laws.
#![tactic(auto)]

mod laws;
mod words;

pub use laws::{one_answer, one_expansion, one_replacement, origins, parameters};
pub use words::{Group, GroupState, Word};
