//! Statements, read from tokens (C11 6.8).
#![tactic(auto)]

mod optional;
mod simple_statements;
mod statements;

pub use statements::block_items;
