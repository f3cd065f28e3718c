//! What the machine's operations on 64-bit numbers give.
#![tactic(auto)]

mod binary;
mod signed;

pub use binary::binary_value;
pub use signed::divide_value;
